//! Lines and quits out of the bytes that come from a console, however they are cut.
#![tactic(auto)]

ghost use Rattle.std.specs.Prelude.{◌≡◌, [], ℕ, List, true, nat_eq};
ghost use Rattle.bcd48.specs.Characters.{is_character};
ghost use Rattle.ctss_types.specs.Line.{trimmed};
ghost use Rattle.console_wire.specs.Items.{character_of, half_of, items_at, piece_after};

mod laws;

use bcd48::is_character;
use ctss_types::LineText;
pub use laws::{items_are_typed, parts_give_the_whole, row_of_items};
use std::marker::Model;

/// What a byte gave.
#[derive(Clone, Copy, Debug, PartialEq, Eq)]
pub enum Fed {
    More,
    Line(LineText),
    Quit,
}

/// The half line that a console has sent.
#[derive(Drop)]
pub struct Wire {
    bytes: [u8; 84],
    len: u8,
}

impl Model for Wire {
    ghost use Rattle.std.specs.Prelude.{ℕ, List, take};
    ghost use Rattle.console_wire.specs.Shape.{IsHalf};

    ghost Value = { List ℕ };

    ghost view = { λ w. take w.len w.bytes };

    ghost invariant = { λ w. IsHalf w.bytes w.len };
}

/// The character that a byte stands for.
fn character(byte: u8) -> u8
    ensures value { result ≡ character_of byte }
    ensures known { is_character result ≡ true }
{
    if byte.is_ascii_lowercase() {
        byte - 32
    } else if is_character(byte) {
        byte
    } else {
        b' '
    }
}

impl Wire {
    ghost use Rattle.console_wire.specs.Half.{with_character, items_given};

    /// Nothing sent yet.
    pub fn new() -> Wire
        ensures { result ≡ [] }
    {
        Wire {
            bytes: [0; 84],
            len: 0,
        }
    }

    /// The line that is finished here.
    #[tactic(auto, using(crate::proofs::Halves::trimmed_len, crate::proofs::Halves::trimmed_all))]
    fn line(&self) -> LineText
        ensures { result ≡ trimmed self.now }
    {
        match LineText::from_bytes(&self.bytes[..self.len as usize]) {
            Ok(line) => line,
            Err(_) => unreachable!(),
        }
    }

    /// A character more, where there is room for it.
    fn keep(&mut self, character: u8)
        requires { is_character character ≡ true }
        ensures { self.new ≡ with_character self.old character }
    {
        if (self.len as usize) < 84 {
            self.bytes[self.len as usize] = character;
            self.len += 1;
        }
    }

    /// One byte more, behind any piece that the half line stands for.
    #[tactic(auto, using(crate::proofs::Halves::goes_on, crate::proofs::Halves::half_same))]
    pub fn push(&mut self, byte: u8) -> Fed
        ensures items { (piece : List ℕ) → self.old ≡ half_of piece → items_given result ≡ items_at piece byte }
        ensures half { (piece : List ℕ) → self.old ≡ half_of piece → self.new ≡ half_of (piece_after piece byte) }
    {
        match byte {
            b'\n' => {
                let line = self.line();
                self.len = 0;
                Fed::Line(line)
            }
            3 => {
                self.len = 0;
                Fed::Quit
            }
            b'\r' => Fed::More,
            _ => {
                self.keep(character(byte));
                Fed::More
            }
        }
    }
}
