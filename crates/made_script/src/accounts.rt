ghost use Rattle.std.specs.Prelude.{◌≡◌, ◌≤◌, ◌++◌, OnOk};
ghost use Rattle.text_model.specs.Made.{account_at, made_accounts};

use crate::names::numbered;
use ctss_types::{Account, AccountList, NoMemory, name_word};

/// The account of a user.
fn account_at(user: u8) -> Account
    requires { user ≤ 30 }
    ensures { result ≡ account_at user }
{
    Account {
        name: name_word(numbered(b"U", user).as_slice()),
        password: name_word(numbered(b"P", user).as_slice()),
        blocks: 16,
        tracks: 5,
    }
}

/// Adds so many accounts, numbered from 1 on.
pub fn add_accounts(list: &mut AccountList, users: u8) -> Result<(), NoMemory>
    requires { users ≤ 30 }
    ensures { OnOk result (list.new ≡ list.old ++ made_accounts users 1) }
{
    let mut left = users;
    let mut user = 1;
    'users: while left > 0 {
        list.push(account_at(user))?;
        left -= 1;
        user += 1;
    }
    Ok(())
}
