ghost use Rattle.std.specs.Prelude.{◌≡◌, ◌↔◌, true, false};
ghost use Rattle.dialogue.specs.Places.{place_of};
ghost use Rattle.program_model.specs.Stops.{no_stops, is_break, is_full, with_break, without_break, meets};

use arrayvec::ArrayVec;
use std::marker::Model;

/// Whether a breakpoint is set.
#[derive(Clone, Copy, Debug, PartialEq, Eq)]
pub enum Marked {
    Done,
    /// Eight others are set.
    Full,
}

/// The breakpoints of an open debugger, at most eight, and whether the program has done an own step since it was let go.
#[derive(Drop)]
pub struct Debug {
    breaks: ArrayVec<u16, 8>,
    stepped: bool,
}

impl Model for Debug {
    ghost use Rattle.program_model.specs.Stops.{Stops};

    ghost Value = { Stops };

    ghost view = { λ d. record { breaks = d.breaks.items; stepped = d.stepped } };
}

impl Debug {
    /// No breakpoint.
    pub fn new() -> Debug
        ensures { result ≡ no_stops }
    {
        Debug {
            breaks: ArrayVec::new(),
            stepped: false,
        }
    }

    /// Whether a breakpoint is set at a place.
    fn is_break(&self, at: u16) -> bool
        ensures { result ≡ is_break self.now.breaks at }
    {
        self.breaks.iter().any(|place| *place == at)
    }

    /// Whether eight others than this place are set.
    pub fn is_full(&self, at: u16) -> bool
        ensures { result ≡ is_full self.now.breaks at }
    {
        !self.is_break(at) && self.breaks.is_full()
    }

    /// Sets a breakpoint. One that is set stays, and eight others leave no room.
    pub fn set_break(&mut self, at: u16) -> Marked
        ensures full { (result ≡ Marked.Full) ↔ (is_full self.old.breaks at ≡ true) }
        ensures stays { result ≡ Marked.Full → self.new ≡ self.old }
        ensures done { result ≡ Marked.Done
            → self.new ≡ record self.old { breaks = with_break self.old.breaks at } }
    {
        if self.is_break(at) {
            return Marked::Done;
        }
        if self.breaks.is_full() {
            return Marked::Full;
        }
        self.breaks.push(at);
        Marked::Done
    }

    /// Removes a breakpoint, if it is set.
    #[tactic(auto, using(crate::proofs::FapDebugPlaces::removed_at, crate::proofs::FapDebugPlaces::absent))]
    pub fn clear_break(&mut self, at: u16)
        ensures { self.new ≡ record self.old { breaks = without_break self.old.breaks at } }
    {
        let place = self.place_of(at);
        if place < self.breaks.len() {
            let _ = self.breaks.remove(place);
        }
    }

    /// Where a breakpoint stands among those set; their number, where it isn't one.
    fn place_of(&self, at: u16) -> usize
        ensures { result ≡ place_of self.now.breaks at }
    {
        self.breaks.iter().take_while(|place| **place != at).count()
    }

    /// The program is let go: it has done no own step yet.
    pub fn go(&mut self)
        ensures { self.new ≡ record self.old { stepped = false } }
    {
        self.stepped = false;
    }

    /// The program has done an own step.
    pub fn stepped(&mut self)
        ensures { self.new ≡ record self.old { stepped = true } }
    {
        self.stepped = true;
    }

    /// Whether the program is to stop before the instruction at a place.
    pub fn meets(&self, ic: u16) -> bool
        ensures { result ≡ meets self.now ic }
    {
        self.stepped && self.is_break(ic)
    }
}
