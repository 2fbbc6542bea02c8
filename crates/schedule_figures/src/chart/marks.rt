//! The marks of an entry.
ghost use Rattle.std.specs.Prelude.{◌≡◌, ◌+◌, ◌*◌, ◌^◌, ◌<◌};
ghost use Rattle.picture_model.specs.Marks.{number_character, kind_letter, wait_marks, served_marks, event_marks, level_marks};
ghost use Rattle.schedule_figures.specs.Painted.{Painted};

use crate::chart::place::place_of;
use crate::chart::row::Row;
use ctss_types::{Entry, EventKind};
use picture_model::Track;

/// A number in one character.
fn number_character(number: u8) -> u8
    ensures { result ≡ number_character number }
{
    if number < 10 {
        b'0' + number
    } else {
        55 + number.min(35)
    }
}

/// The letter of what an event was taken as; a blank of a dial.
fn kind_letter(kind: EventKind) -> u8
    ensures { result ≡ kind_letter kind }
{
    match kind {
        EventKind::Dial => b' ',
        EventKind::Line => b'V',
        EventKind::Quit => b'Q',
        EventKind::Hang => b'H',
        EventKind::Spent => b'S',
    }
}

/// Paints what comes to a user at an entry.
pub fn paint_event(row: &mut Row, user: u64, cut: u128, entry: &Entry)
    ensures { Painted (event_marks user cut entry.now) row.old row.new }
{
    match entry {
        Entry::Taken {
            tick,
            kind,
            user: of,
            ..
        } if u64::from(*of) == user => row.paint(place_of(*tick, cut), 0, kind_letter(*kind)),
        Entry::Rise { tick, user: of, .. } if u64::from(*of) == user => {
            row.paint(place_of(*tick, cut), 0, b'R')
        }
        _ => {}
    }
}

/// Paints that a user waits from one tick to another: it is in a queue.
fn paint_wait(row: &mut Row, cut: u128, waited: u128, tick: u64)
    ensures { Painted (wait_marks cut waited tick) row.old row.new }
{
    if waited < u128::from(tick) {
        let waited = waited as u64;
        row.paint(place_of(waited, cut), u128::from(tick - waited), b'.');
    }
}

/// The ticks in which so many blocks are moved.
fn moving(swap: u64, dumped: u8, read: u8) -> u128
    ensures value { result ≡ swap * (dumped + read) }
    ensures below { result < 2 ^ 127 }
{
    u128::from(swap) * (u128::from(dumped) + u128::from(read))
}

/// Paints that a user waits for a service, is brought in, and is served.
pub fn paint_served(row: &mut Row, swap: u64, user: u64, cut: u128, track: Track, entry: &Entry)
    ensures { Painted (served_marks swap user cut track entry.now) row.old row.new }
{
    match entry {
        Entry::Serve {
            tick,
            user: of,
            level,
            ran,
            ..
        } if u64::from(*of) == user => {
            paint_wait(row, cut, track.waited_from(u128::from(*tick)), *tick);
            row.paint(
                place_of(*tick, cut),
                u128::from(*ran),
                number_character(*level),
            );
        }
        Entry::Swap {
            tick,
            user: of,
            dumped,
            read,
            ..
        } if u64::from(*of) == user => {
            row.paint(place_of(*tick, cut), moving(swap, *dumped, *read), b'/')
        }
        _ => {}
    }
}

/// Paints who is served at a level.
pub fn paint_level(row: &mut Row, level: u8, cut: u128, entry: &Entry)
    ensures { Painted (level_marks level cut entry.now) row.old row.new }
{
    match entry {
        Entry::Serve {
            tick,
            user,
            level: of,
            ran,
            ..
        } if *of == level => row.paint(
            place_of(*tick, cut),
            u128::from(*ran),
            number_character(*user),
        ),
        _ => {}
    }
}
