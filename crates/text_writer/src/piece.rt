ghost use Rattle.std.specs.Prelude.{◌≡◌, ◌<◌, ◌≤◌, ◌+◌, ◌++◌, ◌∷◌, [], length, IfOk, vec_len, vec_capacity};

use faults::NoMemory;
use std::alloc::Global;

/// The bytes of a piece.
pub const PIECE: usize = 65_536;

/// Memory for one piece of a text: 65,536 bytes, taken when it is made.
#[derive(Drop)]
pub struct Piece {
    pub bytes: Vec<u8>,
    ghost size: { vec_len bytes ≤ 65536 },
    ghost room: { 65536 ≤ vec_capacity bytes },
}

impl Piece {
    /// A piece with nothing in it.
    pub fn new(alloc: Global) -> Result<Piece, NoMemory>
        ensures { IfOk result (λ piece. piece.bytes.items ≡ []) }
    {
        Ok(Piece {
            bytes: Vec::with_capacity(alloc, PIECE)?,
        })
    }

    /// How many bytes more it has room for.
    pub fn room(&self) -> usize
        ensures { result + length self.now.bytes.items ≡ 65536 }
    {
        PIECE - self.bytes.len()
    }

    /// Adds bytes for which there is room.
    pub fn add(&mut self, text: &[u8])
        requires { length self.old.bytes.items + length text.now ≤ 65536 }
        ensures { self.new.bytes.items ≡ self.old.bytes.items ++ text.now }
    {
        // The room was taken when the piece was made.
        self.bytes.extend_from_slice(text).unwrap();
    }

    /// Adds a byte for which there is room.
    pub fn push(&mut self, byte: u8)
        requires { length self.old.bytes.items < 65536 }
        ensures { self.new.bytes.items ≡ self.old.bytes.items ++ byte ∷ [] }
    {
        // The room was taken when the piece was made.
        self.bytes.push(byte).unwrap();
    }

    /// Empties it.
    pub fn clear(&mut self)
        ensures { self.new.bytes.items ≡ [] }
    {
        self.bytes.clear();
    }
}
