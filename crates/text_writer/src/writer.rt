ghost use Rattle.std.specs.Prelude.{◌≡◌, ◌≤◌, ◌+◌, ◌∷◌, [], length, false};
ghost use Rattle.text_writer.specs.Writing.{Adds};

use crate::piece::Piece;
use ctss_io::{Sink, write_all};

/// A text on its way to a sink. What comes waits in a piece of memory, which is put when it is full: so behind the first byte no
/// memory is wanted. Once a put has failed nothing more is put, and what comes is dropped.
#[derive(Drop)]
pub struct TextWriter<'a, K: Sink> {
    sink: &'a mut K,
    piece: Piece,
    has_failed: bool,
}

impl<'a, K: Sink> TextWriter<'a, K> {
    /// Nothing of a text yet, over this sink. What waits will stand in this piece, which is empty.
    pub fn over(sink: &'a mut K, piece: Piece) -> TextWriter<'a, K>
        ensures same { result.sink.ghost_name ≡ sink.entry.ghost_name }
        ensures now { result.sink.now ≡ sink.old }
        ensures piece { result.piece ≡ piece }
        ensures good { result.has_failed ≡ false }
    {
        TextWriter {
            sink,
            piece,
            has_failed: false,
        }
    }

    /// Ends it, and gives the sink back. What waits is dropped.
    pub fn back(self) -> &'a mut K
        ensures same { result.ghost_name ≡ self.entry.sink.ghost_name }
        ensures now { result.now ≡ self.entry.sink.now }
    {
        let TextWriter {
            sink,
            piece,
            has_failed: _,
        } = self;
        drop(piece);
        sink
    }

    /// Whether a put has failed.
    pub fn has_failed(&self) -> bool
        ensures { result ≡ self.now.has_failed }
    {
        self.has_failed
    }

    /// Puts what waits.
    #[inline(never)]
    pub fn flush(&mut self)
        ensures added { Adds K.Sink [] self.old self.new }
        ensures empty { self.new.piece.bytes.items ≡ [] }
    {
        if self.has_failed {
            self.piece.clear();
            return;
        }
        self.has_failed = write_all(self.sink, &self.piece.bytes).is_err();
        self.piece.clear();
    }

    /// Adds a text.
    pub fn add(&mut self, text: &[u8])
        ensures { Adds K.Sink text.now self.old self.new }
    {
        if text.len() > self.piece.room() {
            self.flush();
            self.pass(text);
        } else {
            self.hold(text);
        }
    }

    /// Adds a byte. Mostly there is room for it.
    #[inline]
    pub(crate) fn byte(&mut self, byte: u8)
        ensures { Adds K.Sink (byte ∷ []) self.old self.new }
    {
        if self.has_failed || self.piece.room() == 0 {
            self.add(&[byte]);
        } else {
            self.piece.push(byte);
        }
    }

    /// Adds a text where nothing waits. It stands apart, as it is rarely come to.
    #[inline(never)]
    fn pass(&mut self, text: &[u8])
        requires { self.old.piece.bytes.items ≡ [] }
        ensures { Adds K.Sink text.now self.old self.new }
    {
        if text.len() > self.piece.room() {
            self.put(text);
        } else {
            self.hold(text);
        }
    }

    /// Puts a text where nothing waits.
    fn put(&mut self, text: &[u8])
        requires { self.old.piece.bytes.items ≡ [] }
        ensures { Adds K.Sink text.now self.old self.new }
    {
        if !self.has_failed {
            self.has_failed = write_all(self.sink, text).is_err();
        }
    }

    /// Has a text wait, for which there is room.
    fn hold(&mut self, text: &[u8])
        requires { length self.old.piece.bytes.items + length text.now ≤ 65536 }
        ensures { Adds K.Sink text.now self.old self.new }
    {
        if !self.has_failed {
            self.piece.add(text);
        }
    }
}
