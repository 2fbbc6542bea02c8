//! A server over a core and a link.
ghost use Rattle.std.specs.Prelude.{◌≡◌, ◌<◌, ◌≤◌, false, [], replicate, None, IfOk, OnOk, IfErr};
ghost use Rattle.console_server.specs.Cores.{HasGoneOn};
ghost use Rattle.console_server.specs.Readings.{DidAll};
ghost use Rattle.console_server.specs.Turns.{Desk};
ghost use Rattle.console_server.specs.Conversation.{TurnsAreDone, TurnsAreCut};
ghost use Rattle.console_server.specs.Server.{state, AreUnused, HasTables, CanServe, KeepsServer, IsReady, IsDeskOf};
ghost use Rattle.console_server.specs.Server.{TurnIsDone, TurnIsCut, IsCause, CountsFaults, closes};

use crate::book::Book;
use crate::closing::close_all;
use crate::fault::ServeFault;
use crate::tasks::Task;
use crate::turn::do_turn;
use console_link::Link;
use ctss_types::{NoMemory, Timed, TimedList};
use live_core::LiveCore;
use std::alloc::Global;

/// A core, a link, and a task for each console.
#[derive(Drop)]
pub struct Server<'a, C, L> {
    book: Book<C>,
    link: &'a mut L,
    seats: Vec<Option<Task>>,
    failed: Vec<bool>,
}

/// The core at the end, and the events that it was given.
#[derive(Drop)]
pub struct Finished<C> {
    pub core: C,
    pub events: TimedList,
}

/// 32 consoles without a connection.
fn no_tasks(alloc: Global) -> Result<Vec<Option<Task>>, NoMemory>
    ensures { IfOk result (λ seats. seats.items ≡ replicate 32 None) }
{
    let mut seats = Vec::with_capacity(alloc, 32)?;
    'consoles: for _ in 0..32u8 {
        seats.push(None)?;
    }
    Ok(seats)
}

/// The tables of a server that has served nobody: all of it that takes memory before its core and its link are handed
/// in.
#[derive(Drop)]
pub struct Tables {
    events: Vec<Timed>,
    seats: Vec<Option<Task>>,
    failed: Vec<bool>,
}

impl Tables {
    /// Of 32 consoles.
    pub fn new(alloc: Global) -> Result<Tables, NoMemory>
        ensures { IfOk result AreUnused }
    {
        Ok(Tables {
            events: Vec::new(alloc),
            seats: no_tasks(alloc)?,
            failed: vec![in alloc; false; 32]?,
        })
    }
}

impl<'a, C: LiveCore + Drop, L: Link> Server<'a, C, L> {
    /// A server of 32 consoles, none of which has a connection.
    #[tactic(auto, using(crate::proofs::CutLaws::none_seated))]
    pub fn new(tables: Tables, core: C, link: &'a mut L) -> Server<'a, C, L>
        requires unused { AreUnused tables }
        ensures tables { HasTables L.seen (state result) }
        ensures state { state result ≡ record {
          core = core;
          events = [];
          seats = replicate 32 None;
          failed = replicate 32 false;
          link = link.entry;
        } }
    {
        let Tables {
            events,
            seats,
            failed,
        } = tables;
        Server {
            book: Book { core, events },
            link,
            seats,
            failed,
        }
    }

    /// One turn: it waits once, accepts and reads what has come, hands the core its events, lets it go on to the turn's
    /// limit, and sends what the consoles have shown. After a fault only `finish` may be called.
    pub fn turn(&mut self, number: u64) -> Result<(), ServeFault>
        requires number { number < 100000 }
        requires server { CanServe C.seen C.Sound L.seen (state self.old) }
        ensures done { (desk : Desk) → IsDeskOf (state self.old) desk
            → OnOk result (TurnIsDone C.Goes C.seen L.seen number desk (state self.old) (state self.new)) }
        ensures cut { (desk : Desk) → IsDeskOf (state self.old) desk
            → IfErr result (λ fault. TurnIsCut C.Goes C.seen L.seen number desk fault
            (state self.old) (state self.new)) }
        ensures cause { CountsFaults result
            (L.seen (state self.old).link.now) (L.seen (state self.new).link.now)
            (C.seen (state self.old).core) (C.seen (state self.new).core) }
        ensures went { OnOk result (HasGoneOn C.seen C.Sound (state self.old).core (state self.new).core) }
        ensures tables { KeepsServer L.seen (state self.old) (state self.new) }
    {
        do_turn(
            &mut self.book,
            self.link,
            &mut self.seats,
            &mut self.failed,
            number,
        )
    }

    /// So many turns, the first of which is number 0. After a fault only `finish` may be called.
    pub fn turns(&mut self, count: u64) -> Result<(), ServeFault>
        requires count { count ≤ 100000 }
        requires server { CanServe C.seen C.Sound L.seen (state self.old) }
        ensures done { (desk : Desk) → IsDeskOf (state self.old) desk
            → OnOk result (TurnsAreDone C.Goes C.seen L.seen count desk (state self.old) (state self.new)) }
        ensures cut { (desk : Desk) → IsDeskOf (state self.old) desk
            → IfErr result (λ fault. TurnsAreCut C.Goes C.seen L.seen count desk fault
            (state self.old) (state self.new)) }
        ensures cause { IfErr result (λ fault. IsCause fault
            (L.seen (state self.old).link.now) (L.seen (state self.new).link.now)
            (C.seen (state self.old).core) (C.seen (state self.new).core)) }
        ensures tables { KeepsServer L.seen (state self.old) (state self.new) }
        ensures ready { OnOk result (IsReady C.seen C.Sound (state self.new)) }
    {
        'turns: for number in 0..count {
            self.turn(number)?;
        }
        Ok(())
    }

    /// Closes all consoles' connections, and gives back the core, the events that it was given, and the link.
    pub fn finish(self) -> (Finished<C>, &'a mut L)
        requires tables { HasTables L.seen (state self) }
        ensures core { result.0.core ≡ (state self.entry).core }
        ensures events { result.0.events ≡ (state self.entry).events }
        ensures link { DidAll (closes (state self.entry).seats)
            (L.seen (state self.entry).link.now) (L.seen result.1.now) }
        ensures same { result.1.ghost_name ≡ (state self.entry).link.ghost_name }
    {
        let Server {
            book,
            link,
            seats,
            failed,
        } = self;
        let mut tasks = seats;
        close_all(link, &mut tasks);
        drop(tasks);
        drop(failed);
        let Book { core, events } = book;
        (
            Finished {
                core,
                events: TimedList::from_vec(events),
            },
            link,
        )
    }
}
