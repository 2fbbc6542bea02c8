//! One turn.
ghost use Rattle.std.specs.Prelude.{◌∷◌, ◌≡◌, ◌≤◌, ◌<◌, [], length, OnOk, OnErr, IfErr};
ghost use Rattle.console_server.specs.Cores.{CanGoOn, HasGoneOn};
ghost use Rattle.console_server.specs.Given.{IsGiven, IsGivenPart, StaysReady};
ghost use Rattle.console_server.specs.Turns.{Desk, hangs};
ghost use Rattle.console_server.specs.Seats.{StandAll};
ghost use Rattle.console_server.specs.Consoles.{AreTables, KeepsTables};
ghost use Rattle.console_server.specs.Done.{IsDone};
ghost use Rattle.console_server.specs.Server.{IsCut, CountsFaults};

use crate::book::Book;
use crate::fault::ServeFault;
use crate::hearing::hear_all;
use crate::seating::{SeatingFault, accept_all};
use crate::tasks::Task;
use crate::writing::tell_all;
use console_link::Link;
use ctss_types::{ConsoleNo, Event, NoMemory, RunFault};
use live_core::LiveCore;

/// The core hears of a connection that failed in the last turn's writes.
fn hang<C: LiveCore>(
    book: &mut Book<C>,
    is_lost: bool,
    tick: u64,
    console: ConsoleNo,
) -> Result<(), NoMemory>
    requires ready { CanGoOn C.seen C.Sound book.old.core }
    ensures ok { OnOk result (IsGiven C.Goes (hangs tick console (is_lost ∷ [])) book.old.core book.new.core
        book.old.events.items book.new.events.items) }
    ensures err { OnErr result (IsGiven C.Goes [] book.old.core book.new.core book.old.events.items
        book.new.events.items) }
    ensures core { StaysReady C.seen C.Sound book.old.core book.new.core }
{
    if !is_lost {
        return Ok(());
    }
    book.give(tick, console, Event::Hang)
}

/// The core hears of the connections that failed in the last turn's writes.
fn hang_all<C: LiveCore>(book: &mut Book<C>, failed: &[bool], tick: u64) -> Result<(), NoMemory>
    requires many { length failed.now ≤ 32 }
    requires ready { CanGoOn C.seen C.Sound book.old.core }
    ensures ok { OnOk result (IsGiven C.Goes (hangs tick 1 failed.now) book.old.core book.new.core
        book.old.events.items book.new.events.items) }
    ensures err { OnErr result (IsGivenPart C.Goes (hangs tick 1 failed.now)
        book.old.core book.new.core book.old.events.items book.new.events.items) }
    ensures core { StaysReady C.seen C.Sound book.old.core book.new.core }
{
    'consoles: for i in 0..failed.len() {
        let Some(console) = ConsoleNo::new(i as u8 + 1) else {
            unreachable!()
        };
        hang(book, failed[i], tick, console)?;
    }
    Ok(())
}

/// One turn over a core, a link and the tasks of the consoles.
pub(crate) fn do_turn<C: LiveCore, L: Link>(
    book: &mut Book<C>,
    link: &mut L,
    seats: &mut Vec<Option<Task>>,
    failed: &mut Vec<bool>,
    number: u64,
) -> Result<(), ServeFault>
    requires number { number < 100000 }
    requires tables { AreTables (L.seen link.old).is_open seats.old.items failed.old.items }
    requires ready { CanGoOn C.seen C.Sound book.old.core }
    ensures done { (desk : Desk) → StandAll seats.old.items desk.seats → desk.failed ≡ failed.old.items
        → OnOk result (IsDone C.Goes C.seen number desk (L.seen link.old) (L.seen link.new) book.old.core
        book.new.core book.old.events.items book.new.events.items seats.new.items failed.new.items) }
    ensures cut { (desk : Desk) → StandAll seats.old.items desk.seats → desk.failed ≡ failed.old.items
        → IfErr result (λ fault. IsCut C.Goes C.seen number desk fault (L.seen link.old) (L.seen link.new)
        book.old.core book.new.core book.old.events.items book.new.events.items) }
    ensures cause { CountsFaults result (L.seen link.old) (L.seen link.new) (C.seen book.old.core)
        (C.seen book.new.core) }
    ensures went { OnOk result (HasGoneOn C.seen C.Sound book.old.core book.new.core) }
    ensures tables { KeepsTables (L.seen link.new).is_open seats.old.items seats.new.items failed.old.items
        failed.new.items }
{
    let tick = 1000 * number;
    match link.wait(10) {
        Ok(()) => {}
        Err(_) => return Err(ServeFault::Link),
    }
    match hang_all(book, failed.as_slice(), tick) {
        Ok(()) => {}
        Err(NoMemory) => return Err(ServeFault::NoMemory),
    }
    match accept_all(book, link, seats, tick) {
        Ok(()) => {}
        Err(SeatingFault::Listener) => return Err(ServeFault::Link),
        Err(SeatingFault::NoMemory) => return Err(ServeFault::NoMemory),
    }
    match hear_all(book, link, seats, tick) {
        Ok(()) => {}
        Err(NoMemory) => return Err(ServeFault::NoMemory),
    }
    match book.core.advance(1000 * (number + 1)) {
        Ok(()) => {}
        Err(RunFault::Drum) => return Err(ServeFault::Drum),
        Err(RunFault::Disk) => return Err(ServeFault::Disk),
        Err(RunFault::NoMemory) => return Err(ServeFault::NoMemory),
    }
    tell_all(&book.core, link, seats, failed);
    Ok(())
}
