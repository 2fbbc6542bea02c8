ghost use Rattle.std.specs.Prelude.{◌≡◌, ◌+◌, ◌^◌, ◌<◌, ◌≤◌, IfOk, length, max, take};
ghost use Rattle.link_model.specs.Moves.{nothing_moved, moved_size, moved_behind};
ghost use Rattle.fap_assemble.specs.Steps.{texts, definition, new_symbols};
ghost use Rattle.fap_assemble.specs.Judging.{relocated_in, moved_at};
ghost use Rattle.fap_assemble.specs.ModuleFollows.{IsSpot, relocated_from, TellsAll};

use crate::moves::{Before, Moves, module_operation, moved_size, moves_of};
use crate::past::{EXTERN, named_by};
use crate::place::visible_behind;
use crate::roster::Roster;
use crate::symbols::Symbols;
use crate::whole::{Whole, blocks_for};
use ctss_types::NoMemory;
use fap_model::Operation;
use fap_read::{Card, is_comment};
use std::alloc::Global;

/// What all cards of a module together tell: its symbols, its literals, the place behind its last card and its blocks; how much
/// each symbol weighs; which symbols are EQUs'; and its externs.
#[derive(Drop)]
pub(crate) struct Relocated {
    pub(crate) whole: Whole,
    pub(crate) weights: Symbols,
    pub(crate) equs: Roster,
    pub(crate) externs: Roster,
}

/// Where a card stands: its place, and how many symbols and weights are known before it.
#[derive(Clone, Copy)]
pub(crate) struct Spot {
    pub(crate) visible: usize,
    pub(crate) weighed: usize,
    pub(crate) place: u64,
}

impl Spot {
    /// Before the first card.
    pub(crate) fn first() -> Spot
        ensures { IsSpot result nothing_moved }
    {
        Spot {
            visible: 0,
            weighed: 0,
            place: 0,
        }
    }
}

/// What cards tell that come to this.
fn relocated_by(moves: Moves, externs: Roster) -> Relocated
    requires place { moves.place < 2 ^ 33 }
    requires few { length moves.literals < 2 ^ 33 }
    ensures value { relocated_in result ≡ relocated_from moves externs }
    ensures symbols { result.whole.symbols ≡ moves.symbols }
    ensures weights { result.weights ≡ moves.weights }
    ensures externs { result.externs ≡ externs }
    ensures place { result.whole.end_place < 2 ^ 33 }
    ensures few { length result.whole.literals < 2 ^ 33 }
    ensures blocks { result.whole.blocks < 2 ^ 30 }
{
    let Moves {
        symbols,
        weights,
        equs,
        literals,
        place,
    } = moves;
    let blocks = blocks_for(place + literals.len() as u64);
    Relocated {
        whole: Whole {
            symbols,
            literals,
            end_place: place,
            blocks,
        },
        weights,
        equs,
        externs,
    }
}

/// What all cards that are read tell.
pub(crate) fn relocated_of(alloc: Global, read: &[Card]) -> Result<Relocated, NoMemory>
    requires { length read.now < 2 ^ 32 }
    ensures value { IfOk result (λ r. TellsAll r (texts read.now)) }
    ensures place { IfOk result (λ r. r.whole.end_place < 2 ^ 33) }
    ensures few { IfOk result (λ r. length r.whole.literals < 2 ^ 33) }
    ensures blocks { IfOk result (λ r. r.whole.blocks < 2 ^ 30) }
{
    let externs = named_by(alloc, EXTERN, read)?;
    let moves = moves_of(alloc, &externs, read)?;
    Ok(relocated_by(moves, externs))
}

impl Relocated {
    /// Lets it go where memory ends, by one call: the proof of a function goes through all its parts wherever it is let go
    /// without one.
    pub(crate) fn spent(self) -> NoMemory {
        drop(self);
        NoMemory
    }

    /// The externs alone.
    pub(crate) fn into_externs(self) -> Roster
        ensures { result ≡ self.externs }
    {
        let Relocated {
            whole,
            weights,
            equs,
            externs,
        } = self;
        drop(whole);
        drop(weights);
        drop(equs);
        externs
    }

    /// How many words a card takes or reserves.
    pub(crate) fn size(
        &self,
        alloc: Global,
        spot: Spot,
        op: Option<Operation>,
        text: &[u8],
    ) -> Result<u64, NoMemory>
        requires { spot.place < 2 ^ 40 }
        ensures value { IfOk result (λ n. n ≡ moved_size self.now.externs (moved_at self.now spot) op text.now) }
        ensures within { IfOk result (λ n. spot.place + n ≤ max 32768 (spot.place + 1)) }
    {
        let b = Before {
            externs: &self.externs,
            symbols: &self.whole.symbols,
            weights: &self.weights,
            visible: spot.visible,
            weighed: spot.weighed,
            place: spot.place,
        };
        moved_size(alloc, op, text, b)
    }

    /// Where the next card stands.
    #[tactic(auto, using(crate::proofs::Moving::place_behind, crate::proofs::Moving::place_kept))]
    pub(crate) fn behind(&self, alloc: Global, spot: Spot, text: &[u8]) -> Result<Spot, NoMemory>
        requires place { spot.place < 2 ^ 40 }
        requires visible { spot.visible < 2 ^ 40 }
        requires weighed { spot.weighed < 2 ^ 40 }
        ensures place { IfOk result (λ s. s.place
            ≡ (moved_behind self.now.externs (moved_at self.now spot) text.now).known.place) }
        ensures visible { IfOk result (λ s. s.visible
            ≡ spot.visible + new_symbols (take spot.visible self.now.whole.symbols) (definition text.now)) }
        ensures weighed { IfOk result (λ s. s.weighed
            ≡ spot.weighed + new_symbols (take spot.weighed self.now.weights) (definition text.now)) }
        ensures near { IfOk result (λ s. s.place ≤ max 32768 (spot.place + 1)) }
        ensures few { IfOk result (λ s. s.visible ≤ spot.visible + 1) }
        ensures fewer { IfOk result (λ s. s.weighed ≤ spot.weighed + 1) }
    {
        let op = if is_comment(text) {
            None
        } else {
            module_operation(text)
        };
        let size = self.size(alloc, spot, op, text)?;
        Ok(Spot {
            visible: visible_behind(text, &self.whole.symbols, spot.visible),
            weighed: visible_behind(text, &self.weights, spot.weighed),
            place: spot.place + size,
        })
    }
}
