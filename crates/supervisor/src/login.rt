//! Who logs in.
ghost use Rattle.std.specs.Prelude.{◌≡◌, ◌<◌, ◌≤◌, ℕ, false, length};
ghost use Rattle.ctss_types.specs.Words.{words_of};
ghost use Rattle.time_sharing.specs.System.{at};
ghost use Rattle.system_model.specs.World.{asked as asked_in, password_by};
ghost use Rattle.system_model.specs.Cases.{user_at};

use crate::words::split;
use accounts::Accounts;
use ctss_types::{LineText, UserNo};
use dialogue::command_table::word_name;
use user_session::Session;
use word36::Word;

/// The name that the line LOGIN asks for.
#[tactic(auto, using(crate::proofs::LoginWords::asked_two, crate::proofs::LoginWords::asked_other), unfolding(system_model::specs::World::asked))]
pub(crate) fn asked(line: &LineText) -> Option<Word>
    ensures { result ≡ asked_in line.now }
{
    let words = split(line);
    if words.len() == 2 && words.word(0) == b"LOGIN".as_slice() {
        word_name(words.word(1))
    } else {
        None
    }
}

/// The password that a line is: just one word.
#[tactic(auto, using(crate::proofs::LoginWords::password_one, crate::proofs::LoginWords::password_other))]
pub(crate) fn password_in(line: &LineText) -> Option<Word>
    ensures { result ≡ password_by (words_of line.now) }
{
    let words = split(line);
    if words.len() == 1 {
        word_name(words.word(0))
    } else {
        None
    }
}

/// The accounts learn whose sessions are open.
pub(crate) fn mark_on(accounts: &mut Accounts, sessions: &[Session])
    requires all { length accounts.old.list ≤ length sessions.now }
    ensures list { accounts.new.list ≡ accounts.old.list }
    ensures on { (u : ℕ) → 0 < u → u ≤ length accounts.old.list
        → at false accounts.new.on u ≡ (user_at u sessions.now).on }
{
    let count = accounts.list().len();
    'users: for i in 0..count {
        accounts.set_on(UserNo::of(i as u8 + 1), sessions[i].is_open());
    }
}
