ghost use Rattle.std.specs.Prelude.{◌≡◌, ◌+◌, ◌^◌, ◌<◌, length};
ghost use Rattle.fap_model.specs.Places.{looks_back};
ghost use Rattle.fap_model.specs.Decks.{blocks_for, reach_of};
ghost use Rattle.fap_assemble.specs.Wholes.{whole_in, whole_of_tables, is_start_outside, names_seen};

use crate::field::Said;
use crate::literals::Literals;
use crate::symbols::Symbols;
use crate::tables::{Tables, reach_of};
use fap_model::Operation;

/// What all cards together tell: the symbols, the literals, the place behind the last card before END, the blocks.
#[derive(Drop)]
pub(crate) struct Whole {
    pub(crate) symbols: Symbols,
    pub(crate) literals: Literals,
    pub(crate) end_place: u64,
    pub(crate) blocks: u64,
}

impl Whole {
    /// The literals stand behind the last card.
    pub(crate) fn new(tables: Tables) -> Whole
        requires few { length tables.literals < 2 ^ 33 }
        requires place { tables.place < 2 ^ 33 }
        requires reach { tables.reach < 2 ^ 33 }
        ensures value { whole_in result ≡ whole_of_tables tables }
        ensures place { result.end_place < 2 ^ 33 }
        ensures few { length result.literals < 2 ^ 33 }
        ensures blocks { result.blocks < 2 ^ 30 }
    {
        let Tables {
            symbols,
            literals,
            place,
            reach,
        } = tables;
        let blocks = blocks_for(reach_of(reach, place, literals.len() as u64));
        Whole {
            symbols,
            literals,
            end_place: place,
            blocks,
        }
    }
}

/// The blocks of 256 words below a place, and at least one.
pub(crate) fn blocks_for(reach: u64) -> u64
    requires { reach < 2 ^ 35 }
    ensures value { result ≡ blocks_for reach }
    ensures below { result < 2 ^ 30 }
{
    ((reach + 255) / 256).max(1)
}

/// Whether a start lies outside the blocks.
pub(crate) fn is_start_outside(blocks: u64, said: &Option<Said>) -> bool
    requires { blocks < 2 ^ 30 }
    ensures { result ≡ is_start_outside blocks said.now }
{
    match said {
        Some(Said::Value(Some(start))) => u64::from(*start) >= 256 * blocks,
        _ => false,
    }
}

/// Whether a field may use earlier symbols alone.
fn looks_back(op: Operation) -> bool
    ensures { result ≡ looks_back op }
{
    match op {
        Operation::Org | Operation::Bss | Operation::Equ => true,
        _ => false,
    }
}

/// How many symbols a field may use.
pub(crate) fn names_seen(op: Operation, symbols: &Symbols, visible: usize) -> usize
    ensures { result ≡ names_seen op symbols.now visible }
{
    if looks_back(op) {
        visible
    } else {
        symbols.len()
    }
}
