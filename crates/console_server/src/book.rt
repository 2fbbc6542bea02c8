//! The core, with the events that were given to it.
ghost use Rattle.std.specs.Prelude.{◌≡◌, ◌∷◌, [], OnOk, OnErr, ℕ, List, take};
ghost use Rattle.console_wire.specs.Items.{half_of, items_at, piece_after, items_from, piece_from};
ghost use Rattle.console_server.specs.Cores.{CanGoOn};
ghost use Rattle.console_server.specs.Given.{IsGiven, IsGivenPart, StaysReady};
ghost use Rattle.console_server.specs.Readings.{timed, all_timed};

use console_wire::{Fed, Wire};
use ctss_types::{ConsoleNo, Event, NoMemory, Timed};
use live_core::LiveCore;

/// A core, and the events that it was given.
#[derive(Drop)]
pub(crate) struct Book<C> {
    pub(crate) core: C,
    pub(crate) events: Vec<Timed>,
}

impl<C: LiveCore> Book<C> {
    /// Gives the core an event.
    pub(crate) fn give(
        &mut self,
        tick: u64,
        console: ConsoleNo,
        event: Event,
    ) -> Result<(), NoMemory>
        requires ready { CanGoOn C.seen C.Sound self.old.core }
        ensures ok { OnOk result (IsGiven C.Goes (timed tick console event ∷ []) self.old.core self.new.core
            self.old.events.items self.new.events.items) }
        ensures err { OnErr result (IsGiven C.Goes [] self.old.core self.new.core self.old.events.items
            self.new.events.items) }
        ensures core { StaysReady C.seen C.Sound self.old.core self.new.core }
    {
        self.events.reserve(1)?;
        let given: Event = event;
        self.core.take(Timed {
            tick,
            console,
            event: given,
        })?;
        let noted: Event = event;
        self.events
            .push(Timed {
                tick,
                console,
                event: noted,
            })
            .unwrap();
        Ok(())
    }

    /// Gives the core what a byte completes.
    fn feed_one(
        &mut self,
        tick: u64,
        console: ConsoleNo,
        wire: &mut Wire,
        byte: u8,
    ) -> Result<(), NoMemory>
        requires ready { CanGoOn C.seen C.Sound self.old.core }
        ensures ok { (piece : List ℕ) → wire.old ≡ half_of piece
            → OnOk result (IsGiven C.Goes (all_timed tick console (items_at piece byte)) self.old.core self.new.core
            self.old.events.items self.new.events.items) }
        ensures half { (piece : List ℕ) → wire.old ≡ half_of piece → wire.new ≡ half_of (piece_after piece byte) }
        ensures err { OnErr result (IsGiven C.Goes [] self.old.core self.new.core self.old.events.items
            self.new.events.items) }
        ensures core { StaysReady C.seen C.Sound self.old.core self.new.core }
    {
        match wire.push(byte) {
            Fed::More => Ok(()),
            Fed::Line(line) => self.give(tick, console, Event::Line(line)),
            Fed::Quit => self.give(tick, console, Event::Quit),
        }
    }

    /// Gives the core what the bytes complete.
    #[tactic(auto, using(crate::proofs::Following::given_none, crate::proofs::Following::half_none, crate::proofs::Following::fed_next, crate::proofs::Following::half_next, crate::proofs::Following::fed_stops))]
    pub(crate) fn feed(
        &mut self,
        tick: u64,
        console: ConsoleNo,
        wire: &mut Wire,
        bytes: &[u8],
    ) -> Result<(), NoMemory>
        requires ready { CanGoOn C.seen C.Sound self.old.core }
        ensures ok { (piece : List ℕ) → wire.old ≡ half_of piece
            → OnOk result (IsGiven C.Goes (all_timed tick console (items_from piece bytes.now)) self.old.core
            self.new.core self.old.events.items self.new.events.items) }
        ensures half { (piece : List ℕ) → wire.old ≡ half_of piece
            → OnOk result (wire.new ≡ half_of (piece_from piece bytes.now)) }
        ensures err { (piece : List ℕ) → wire.old ≡ half_of piece
            → OnErr result (IsGivenPart C.Goes (all_timed tick console (items_from piece bytes.now)) self.old.core
            self.new.core self.old.events.items self.new.events.items) }
        ensures core { StaysReady C.seen C.Sound self.old.core self.new.core }
    {
        for byte in bytes {
            self.feed_one(tick, console, wire, *byte)?;
        }
        Ok(())
    }
}
