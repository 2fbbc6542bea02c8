//! Reading one console.
ghost use Rattle.std.specs.Prelude.{List, length, Option, OnOk, OnErr};
ghost use Rattle.console_server.specs.Cores.{CanGoOn};
ghost use Rattle.console_server.specs.Given.{StaysReady};
ghost use Rattle.console_server.specs.Turns.{Talk};
ghost use Rattle.console_server.specs.Seats.{Stands, SeatIsOpen, SeatIsHeard, SeatIsHeardPart};
ghost use Rattle.console_server.specs.Seats.{StandAll, SeatsAreHeard, AreHeardPart};
ghost use Rattle.console_server.specs.Consoles.{ServesOne, AreConsoles, KeepsSeats};

use crate::book::Book;
use crate::reading::drain;
use crate::tasks::Task;
use console_link::Link;
use ctss_types::{ConsoleNo, Event, NoMemory};
use live_core::LiveCore;

/// Reads a console's connection, if it has one. Where that is over it is closed, and the core hears that it hung up.
#[tactic(auto, using(crate::proofs::SeatLaws::heard_none, crate::proofs::SeatLaws::heard_over, crate::proofs::SeatLaws::heard_on, crate::proofs::SeatLaws::heard_short, crate::proofs::SeatLaws::heard_cut, crate::proofs::SeatLaws::not_closed))]
pub(crate) fn hear<C: LiveCore, L: Link>(
    book: &mut Book<C>,
    link: &mut L,
    seat: &mut Option<Task>,
    tick: u64,
    console: ConsoleNo,
) -> Result<(), NoMemory>
    requires here { SeatIsOpen (L.seen link.old).is_open seat.old }
    requires ready { CanGoOn C.seen C.Sound book.old.core }
    ensures ok { (talk : Option Talk) → Stands seat.old talk
        → OnOk result (SeatIsHeard C.Goes tick console talk (L.seen link.old) (L.seen link.new) book.old.core
        book.new.core book.old.events.items book.new.events.items seat.new) }
    ensures err { (talk : Option Talk) → Stands seat.old talk
        → OnErr result (SeatIsHeardPart C.Goes tick console talk (L.seen link.old) (L.seen link.new) book.old.core
        book.new.core book.old.events.items book.new.events.items) }
    ensures seat { ServesOne seat.old seat.new (L.seen link.old) (L.seen link.new) }
    ensures core { StaysReady C.seen C.Sound book.old.core book.new.core }
{
    let Some(mut task) = seat.take() else {
        return Ok(());
    };
    let id = task.id;
    match drain(book, link, id, &mut task.wire, tick, console) {
        Ok(true) => {
            link.close(id);
            book.give(tick, console, Event::Hang)?;
            Ok(())
        }
        Ok(false) => {
            *seat = Some(task);
            Ok(())
        }
        Err(fault) => {
            *seat = Some(task);
            Err(fault)
        }
    }
}

/// Reads all consoles in order.
pub(crate) fn hear_all<C: LiveCore, L: Link>(
    book: &mut Book<C>,
    link: &mut L,
    seats: &mut Vec<Option<Task>>,
    tick: u64,
) -> Result<(), NoMemory>
    requires seats { AreConsoles (L.seen link.old).is_open seats.old.items }
    requires ready { CanGoOn C.seen C.Sound book.old.core }
    ensures ok { (desk : List (Option Talk)) → StandAll seats.old.items desk
        → OnOk result (SeatsAreHeard C.Goes tick (length desk) desk (L.seen link.old) (L.seen link.new) book.old.core
        book.new.core book.old.events.items book.new.events.items seats.new.items) }
    ensures err { (desk : List (Option Talk)) → StandAll seats.old.items desk
        → OnErr result (AreHeardPart C.Goes tick desk (L.seen link.old) (L.seen link.new)
        book.old.core book.new.core book.old.events.items book.new.events.items) }
    ensures seats { KeepsSeats seats.old.items seats.new.items (L.seen link.old) (L.seen link.new) }
    ensures core { StaysReady C.seen C.Sound book.old.core book.new.core }
{
    'consoles: for i in 0..seats.len() {
        let Some(console) = ConsoleNo::new(i as u8 + 1) else {
            unreachable!()
        };
        hear(book, link, &mut seats[i], tick, console)?;
    }
    Ok(())
}
