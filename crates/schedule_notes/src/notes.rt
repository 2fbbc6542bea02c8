//! What a run notes in its schedule, and small parts of its state after a step: the definitions are those of time_sharing `System` and
//! system_model `Cases`.
ghost use Rattle.std.specs.Prelude.{◌≡◌, ◌<◌, ◌≤◌, ◌+◌, ◌-◌, ◌^◌, ◌++◌, ◌∷◌, [], Some, vec_len, vec_capacity, option_to_list};
ghost use Rattle.time_sharing.specs.System.{without, out_of, cause_of as cause_from, clock_entry, service_entry, service_after as service_behind};
ghost use Rattle.system_model.specs.Cases.{idle_notes, idle_start, stop_notes, not_served, end_notes};

use ctss_types::{Cause, Console, Ending, Entry, Service, UserNo};

/// An entry more, where there is room.
pub fn note(entries: &mut Vec<Entry>, entry: Entry)
    requires { vec_len entries.old < vec_capacity entries.old }
    ensures items { entries.new.items ≡ entries.old.items ++ entry ∷ [] }
    ensures len { vec_len entries.new ≡ vec_len entries.old + 1 }
    ensures capacity { vec_capacity entries.old ≤ vec_capacity entries.new }
{
    let _ = entries.push(entry);
}

/// An entry more, if there is one.
pub fn note_some(entries: &mut Vec<Entry>, entry: Option<Entry>)
    requires { vec_len entries.old < vec_capacity entries.old }
    ensures items { entries.new.items ≡ entries.old.items ++ option_to_list entry }
    ensures len { vec_len entries.new ≤ vec_len entries.old + 1 }
    ensures capacity { vec_capacity entries.old ≤ vec_capacity entries.new }
{
    if let Some(entry) = entry {
        note(entries, entry);
    }
}

/// The entry for idling that ends now, if nobody was served.
pub fn idle_note(idling: Option<u64>, now: u64) -> Option<Entry>
    ensures { option_to_list result ≡ idle_notes idling now }
{
    match idling {
        Some(from) => Some(Entry::Idle { from, until: now }),
        None => None,
    }
}

/// The entry for the open service, if it is the user's, which stops.
pub fn stop_note(service: Option<Service>, user: UserNo) -> Option<Entry>
    ensures { option_to_list result ≡ stop_notes service user }
{
    match service {
        Some(v) => {
            if v.user == user {
                Some(Entry::Serve {
                    tick: v.tick,
                    user: v.user.number(),
                    level: v.level,
                    ran: v.ran,
                    cause: Cause::Stop,
                })
            } else {
                None
            }
        }
        None => None,
    }
}

/// The entry for a service that is open at the end.
pub fn end_note(service: Option<Service>) -> Option<Entry>
    ensures { option_to_list result ≡ end_notes service }
{
    match service {
        Some(v) => Some(Entry::Serve {
            tick: v.tick,
            user: v.user.number(),
            level: v.level,
            ran: v.ran,
            cause: Cause::End,
        }),
        None => None,
    }
}

/// The entry for an answer of the clock. It stands apart, so that other steps don't pay for the room of an entry.
#[inline(never)]
fn note_answer(entries: &mut Vec<Entry>, now: u64, user: UserNo)
    requires { vec_len entries.old < vec_capacity entries.old }
    ensures items { entries.new.items ≡ entries.old.items ++ Entry.Clock now user ∷ [] }
    ensures len { vec_len entries.new ≡ vec_len entries.old + 1 }
    ensures capacity { vec_capacity entries.old ≤ vec_capacity entries.new }
{
    let _ = entries.push(Entry::Clock {
        answer: now,
        user: user.number(),
    });
}

/// The entry for an answer of the clock, if it was asked.
pub fn note_clock(entries: &mut Vec<Entry>, asked: bool, now: u64, user: UserNo)
    requires { vec_len entries.old < vec_capacity entries.old }
    ensures items { entries.new.items ≡ entries.old.items ++ clock_entry asked now user }
    ensures len { vec_len entries.new ≤ vec_len entries.old + 1 }
    ensures capacity { vec_capacity entries.old ≤ vec_capacity entries.new }
{
    if asked {
        note_answer(entries, now, user);
    }
}

/// The open service, if it isn't the user's.
pub fn service_left(service: Option<Service>, user: UserNo) -> Option<Service>
    ensures { result ≡ not_served service user }
{
    match service {
        Some(v) => { if v.user == user { None } else { Some(v) } }
        None => None,
    }
}

/// The entry of a service that ends after a step of it. It stands apart, so that other steps don't pay for the room
/// of an entry.
#[inline(never)]
fn note_end(entries: &mut Vec<Entry>, v: Service, cause: Cause)
    requires room { vec_len entries.old < vec_capacity entries.old }
    requires ran { v.ran < 2 ^ 64 - 1 }
    ensures { entries.new.items ≡ entries.old.items ++ service_entry v (Some cause) }
{
    note(
        entries,
        Entry::Serve {
            tick: v.tick,
            user: v.user.number(),
            level: v.level,
            ran: v.ran + 1,
            cause,
        },
    );
}

/// The service after a step of it, if it goes on; where it ends, its entry is noted.
pub fn note_step(entries: &mut Vec<Entry>, v: Service, cause: Option<Cause>) -> Option<Service>
    requires room { vec_len entries.old < vec_capacity entries.old }
    requires ran { v.ran < 2 ^ 64 - 1 }
    ensures items { entries.new.items ≡ entries.old.items ++ service_entry v cause }
    ensures service { result ≡ service_behind v cause }
{
    match cause {
        Some(cause) => {
            note_end(entries, v, cause);
            None
        }
        None => Some(Service {
            tick: v.tick,
            user: v.user,
            level: v.level,
            ran: v.ran + 1,
        }),
    }
}

fn left_console(console: Console, user: UserNo) -> Console
    ensures { result ≡ out_of user console }
{
    match console {
        Console::Session(other) => {
            if other == user {
                Console::On
            } else {
                Console::Session(other)
            }
        }
        other => other,
    }
}

/// The user's session is over.
pub fn leave_consoles(consoles: &mut Vec<Console>, user: UserNo)
    ensures items { consoles.new.items ≡ without user consoles.old.items }
    ensures len { vec_len consoles.new ≡ vec_len consoles.old }
{
    for i in 0..consoles.len() {
        consoles[i] = left_console(consoles[i], user);
    }
}

/// Since when nobody is served.
pub fn idle_from(idling: Option<u64>, now: u64) -> u64
    ensures { result ≡ idle_start idling now }
{
    match idling {
        Some(from) => from,
        None => now,
    }
}

/// Why a service ends after a step, if it does.
pub fn cause_of(ending: Ending, left: bool) -> Option<Cause>
    ensures { result ≡ cause_from ending left }
{
    match ending {
        Ending::Went => { if left { None } else { Some(Cause::Time) } }
        Ending::Stopped | Ending::LoggedOut => Some(Cause::Stop),
        Ending::Resized | Ending::Replaced => Some(Cause::Size),
    }
}
