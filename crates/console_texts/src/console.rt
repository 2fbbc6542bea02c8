//! What a console tells by what it was and what it is.
ghost use Rattle.std.specs.Prelude.{◌≡◌};
ghost use Rattle.time_sharing.specs.System.{Off, at};
ghost use Rattle.time_sharing.specs.Texts.{user_in as user_within, shows as shows_user};
ghost use Rattle.console_texts.specs.Following.{asks as asks_now, goes_on as goes_on_now};

use ctss_types::Console;

/// The user in whose session a console is, or 0.
pub(crate) fn user_in(console: &Console) -> u8
    ensures { result ≡ user_within console.now }
{
    match console {
        Console::Session(user) => user.number(),
        Console::Off | Console::On | Console::Password(_) => 0,
    }
}

/// The user that a console shows in one step.
pub(crate) fn shows(was: &Console, now: &Console) -> u8
    ensures { result ≡ shows_user was.now now.now }
{
    let user = user_in(now);
    if user == 0 { user_in(was) } else { user }
}

/// Whether a console begins to wait for a password.
pub(crate) fn asks(was: &Console, now: &Console) -> bool
    ensures { result ≡ asks_now was.now now.now }
{
    match (was, now) {
        (Console::Password(_), _) => false,
        (_, Console::Password(_)) => true,
        _ => false,
    }
}

/// Whether nothing is told and the same session is shown.
pub(crate) fn goes_on(was: &Console, now: &Console, refused: bool) -> bool
    ensures { result ≡ goes_on_now was.now now.now refused }
{
    !asks(was, now) && !refused && shows(was, now) == user_in(was)
}

/// The console of this number.
#[tactic(auto, using(system_model::proofs::CaseLaws::at_user))]
pub(crate) fn console_at(consoles: &[Console], number: u8) -> Console
    ensures { result ≡ at Off consoles.now number }
{
    if number == 0 {
        return Console::Off;
    }
    match consoles.get(number as usize - 1) {
        Some(console) => *console,
        None => Console::Off,
    }
}

/// The length of a user's transcript.
#[tactic(auto, using(system_model::proofs::CaseLaws::at_user))]
pub(crate) fn length_of(lens: &[usize], user: u8) -> usize
    ensures { result ≡ at 0 lens.now user }
{
    if user == 0 {
        return 0;
    }
    match lens.get(user as usize - 1) {
        Some(len) => *len,
        None => 0,
    }
}
