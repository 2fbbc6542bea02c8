//! Consoles for new connections.
ghost use Rattle.std.specs.Prelude.{◌≡◌, ◌<◌, IfSome, [], List, length, get_or, Option, None, OnOk, OnErr, IfErr};
ghost use Rattle.console_server.specs.Cores.{CanGoOn};
ghost use Rattle.console_server.specs.Given.{IsGiven, StaysReady};
ghost use Rattle.console_server.specs.Turns.{Talk, free_from, dial};
ghost use Rattle.console_server.specs.Seats.{AreSeated, StandAll, FillsSeat, AreAccepted, AcceptsAreCut};
ghost use Rattle.console_server.specs.Consoles.{AreConsoles, MaySeat, KeepsSeats, CountsListener};

use crate::book::Book;
use crate::tasks::Task;
use console_link::{Accepted, Link};
use console_wire::Wire;
use ctss_types::{ConsoleNo, Event, NoMemory};
use live_core::LiveCore;

/// Why accepting ended before its end.
#[derive(Clone, Copy, Debug, PartialEq, Eq)]
pub(crate) enum SeatingFault {
    Listener,
    NoMemory,
}

/// The place of the lowest console without a connection.
fn free_seat(seats: &[Option<Task>]) -> Option<usize>
    ensures value { result ≡ free_from 0 seats.now }
    ensures within { IfSome result (λ i. i < length seats.now) }
    ensures free { IfSome result (λ i. get_or seats.now i None ≡ None) }
{
    'seats: for i in 0..seats.len() {
        if seats[i].is_none() {
            return Some(i);
        }
    }
    None
}

/// A new connection gets the lowest free console, which the core hears of, or is closed.
pub(crate) fn seat<C: LiveCore, L: Link>(
    book: &mut Book<C>,
    link: &mut L,
    seats: &mut Vec<Option<Task>>,
    tick: u64,
    id: u32,
) -> Result<(), NoMemory>
    requires seats { MaySeat (L.seen link.old).is_open seats.old.items id }
    requires ready { CanGoOn C.seen C.Sound book.old.core }
    ensures ok { (desk : List (Option Talk)) → StandAll seats.old.items desk
        → OnOk result (IsGiven C.Goes (dial tick (free_from 1 desk)) book.old.core book.new.core book.old.events.items
        book.new.events.items) }
    ensures err { OnErr result (IsGiven C.Goes [] book.old.core book.new.core book.old.events.items
        book.new.events.items) }
    ensures fills { (desk : List (Option Talk)) → StandAll seats.old.items desk
        → FillsSeat (C.seen book.old.core).texts id desk (L.seen link.old) (L.seen link.new) seats.new.items }
    ensures seats { KeepsSeats seats.old.items seats.new.items (L.seen link.old) (L.seen link.new) }
    ensures core { StaysReady C.seen C.Sound book.old.core book.new.core }
{
    let Some(i) = free_seat(seats) else {
        link.close(id);
        return Ok(());
    };
    let Some(console) = ConsoleNo::new(i as u8 + 1) else {
        unreachable!()
    };
    let place = book.core.out_len(console);
    let wire = Wire::new();
    seats[i] = Some(Task { id, wire, place });
    book.give(tick, console, Event::Dial)
}

/// Accepts the connections that wait, 32 at most.
pub(crate) fn accept_all<C: LiveCore, L: Link>(
    book: &mut Book<C>,
    link: &mut L,
    seats: &mut Vec<Option<Task>>,
    tick: u64,
) -> Result<(), SeatingFault>
    requires seats { AreConsoles (L.seen link.old).is_open seats.old.items }
    requires ready { CanGoOn C.seen C.Sound book.old.core }
    ensures ok { (desk : List (Option Talk)) → StandAll seats.old.items desk
        → OnOk result (AreAccepted C.Goes tick (C.seen book.old.core).texts desk (L.seen link.old) (L.seen link.new)
        book.old.core book.new.core book.old.events.items book.new.events.items seats.new.items) }
    ensures err { (desk : List (Option Talk)) → StandAll seats.old.items desk
        → IfErr result (λ fault. AcceptsAreCut C.Goes tick (C.seen book.old.core).texts desk fault
        (L.seen link.old) (L.seen link.new)
        book.old.core book.new.core book.old.events.items book.new.events.items) }
    ensures cause { CountsListener result (L.seen link.old) (L.seen link.new) }
    ensures seated { AreSeated (L.seen link.new).is_open seats.new.items }
    ensures many { length seats.new.items ≡ length seats.old.items }
    ensures core { StaysReady C.seen C.Sound book.old.core book.new.core }
{
    let mut count = 0u8;
    'accepts: while count < 32 {
        match link.accept() {
            Accepted::New(id) => match seat(book, link, seats, tick, id) {
                Ok(()) => count += 1,
                Err(NoMemory) => return Err(SeatingFault::NoMemory),
            },
            Accepted::NotYet => return Ok(()),
            Accepted::Failed => return Err(SeatingFault::Listener),
        }
    }
    Ok(())
}
