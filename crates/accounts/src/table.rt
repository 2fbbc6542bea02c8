//! The accounts, and who is logged in.
ghost use Rattle.std.specs.Prelude.{◌≡◌, ◌<◌, ◌≤◌, ◌+◌, ◌-◌, false, length, replicate, set, IfSome, IfOk};
ghost use Rattle.system_model.specs.World.{account_in};
ghost use Rattle.accounts.specs.Logins.{login_by};

use ctss_types::{Account, NoMemory, UserNo};
use std::alloc::Global;
use std::marker::Model;
use word36::Word;

/// What a name and a password come to.
#[derive(Clone, Copy, Debug, PartialEq, Eq)]
pub enum Login {
    /// They are those of an account that isn't logged in; its user's number.
    Right(UserNo),
    /// No account has this name and this password.
    Unknown,
    /// The account is logged in already.
    Already,
}

/// The accounts, in the order of their users' numbers, and which of them are logged in.
#[derive(Drop)]
pub struct Accounts {
    list: Vec<Account>,
    on: Vec<bool>,
}

impl Model for Accounts {
    ghost use Rattle.std.specs.Prelude.{◌≡◌, ◌≤◌, length};
    ghost use Rattle.accounts.specs.Logins.{LoginTable};

    ghost Value = { LoginTable };

    ghost view = { λ a. record { list = a.list.items; on = a.on.items } };

    ghost invariant = { λ a. (length a.on.items ≡ length a.list.items) × (length a.list.items ≤ 30) };
}

/// The first account with this name and password, numbered from k.
fn account_from(accounts: &[Account], k: u8, name: Word, password: Word) -> Option<u8>
    requires { k + length accounts.now ≤ 31 }
    ensures value { result ≡ account_in k accounts.now name password }
    ensures within { IfSome result (λ u. (k ≤ u) × (u < k + length accounts.now)) }
{
    match accounts {
        [] => None,
        [a, rest @ ..] => {
            if a.name == name && a.password == password {
                Some(k)
            } else {
                account_from(rest, k + 1, name, password)
            }
        }
    }
}

impl Accounts {
    /// At most 30 accounts, none of which is logged in.
    pub fn new(alloc: Global, list: &[Account]) -> Result<Accounts, NoMemory>
        requires { length list.now ≤ 30 }
        ensures { IfOk result (λ a. a ≡ record { list = list.now; on = replicate (length list.now) false }) }
    {
        let mut copy = Vec::new(alloc);
        copy.extend_from_slice(list)?;
        let on = vec![in alloc; false; list.len()]?;
        Ok(Accounts { list: copy, on })
    }

    /// The accounts in order.
    pub fn list(&self) -> &[Account]
        ensures list { result.now ≡ self.now.list }
        ensures all { length self.now.on ≡ length self.now.list }
        ensures few { length self.now.list ≤ 30 }
    {
        self.list.as_slice()
    }

    /// Whose this name and this password are.
    pub fn check(&self, name: Word, password: Word) -> Login
        ensures { result ≡ login_by (account_in 1 self.now.list name password) self.now.on }
    {
        match account_from(self.list.as_slice(), 1, name, password) {
            None => Login::Unknown,
            Some(user) => {
                if self.on[user as usize - 1] {
                    Login::Already
                } else {
                    Login::Right(UserNo::of(user))
                }
            }
        }
    }

    /// A user is logged in now, or isn't any more.
    pub fn set_on(&mut self, user: UserNo, on: bool)
        requires { user ≤ length self.old.list }
        ensures { self.new ≡ record self.old { on = set self.old.on (user - 1) on } }
    {
        self.on[user.index()] = on;
    }
}
