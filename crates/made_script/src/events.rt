ghost use Rattle.std.specs.Prelude.{◌≡◌, ◌≤◌, ◌++◌, ◌∷◌, [], OnOk};
ghost use Rattle.text_model.specs.Made.{at_console, events_at, made_events};

use crate::names::numbered;
use ctss_types::{ConsoleNo, Event, LineText, NoMemory, Timed, TimedList};

/// Adds an event at a user's console, at the user's tick.
fn add(list: &mut TimedList, user: u8, event: Event) -> Result<(), NoMemory>
    requires { (1 ≤ user) × (user ≤ 30) }
    ensures { OnOk result (list.new ≡ list.old ++ at_console user event ∷ []) }
{
    let Some(console) = ConsoleNo::new(user) else {
        unreachable!()
    };
    let event: Event = event;
    list.push(Timed {
        tick: 100 * u64::from(user),
        console,
        event,
    })
}

/// Adds what a user types.
fn add_session(list: &mut TimedList, user: u8) -> Result<(), NoMemory>
    requires { (1 ≤ user) × (user ≤ 30) }
    ensures { OnOk result (list.new ≡ list.old ++ events_at user) }
{
    add(list, user, Event::Dial)?;
    add(list, user, Event::Line(numbered(b"LOGIN U", user)))?;
    add(list, user, Event::Line(numbered(b"P", user)))?;
    add(list, user, Event::Line(LineText::of(b"LOADGO LOOP")))?;
    add(list, user, Event::Line(LineText::of(b"LOADGO LOOP")))?;
    add(list, user, Event::Line(LineText::of(b"LOGOUT")))?;
    Ok(())
}

/// Adds what so many users type, from user 1 on.
pub fn add_events(list: &mut TimedList, users: u8) -> Result<(), NoMemory>
    requires { users ≤ 30 }
    ensures { OnOk result (list.new ≡ list.old ++ made_events users 1) }
{
    let mut left = users;
    let mut user = 1;
    'users: while left > 0 {
        add_session(list, user)?;
        left -= 1;
        user += 1;
    }
    Ok(())
}
