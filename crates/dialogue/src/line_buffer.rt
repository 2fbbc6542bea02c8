//! The lines that a user typed ahead: at most 2048 from one restart to the next.
ghost use Rattle.std.specs.Prelude.{◌≡◌, ◌+◌, ◌++◌, ◌∷◌, [], ◌↔◌, slice_get, nat_eq, length, drop, IfOk};

use circular_buffer::HeapCircularBuffer;
use ctss_types::{LineText, NoMemory};
use std::alloc::Global;
use std::marker::Model;

/// The most lines that are kept from one restart to the next.
pub const MOST_LINES: u16 = 2048;

/// Whether a line was kept.
#[derive(Clone, Copy, Debug, PartialEq, Eq)]
pub enum Put {
    Kept,
    Spent,
}

/// The unread lines in order, and how many came since the last restart. It takes all its memory when it is made.
#[derive(Drop)]
pub struct Lines {
    lines: HeapCircularBuffer<LineText>,
    count: u16,
}

impl Model for Lines {
    ghost use Rattle.std.specs.Prelude.{◌≡◌, ◌≤◌, length};
    ghost use Rattle.dialogue.specs.Unread.{Unread};

    ghost Value = { Unread };

    ghost view = { λ l. record { lines = l.lines.items; count = l.count } };

    ghost invariant = { λ l. (l.lines.capacity ≡ 2048) × (length l.lines.items ≤ l.count) × (l.count ≤ 2048) };
}

impl Lines {
    /// No lines, and room for 2048.
    pub fn new(alloc: Global) -> Result<Lines, NoMemory>
        ensures { IfOk result (λ l. l ≡ record { lines = []; count = 0 }) }
    {
        let lines = HeapCircularBuffer::with_capacity(alloc, usize::from(MOST_LINES))?;
        Ok(Lines { lines, count: 0 })
    }

    /// A line behind the others, unless 2048 came since the last restart.
    pub fn put(&mut self, line: LineText) -> Put
        ensures spent { (result ≡ Put.Spent) ↔ (self.old.count ≡ 2048) }
        ensures stays { result ≡ Put.Spent → self.new ≡ self.old }
        ensures kept { result ≡ Put.Kept → self.new
            ≡ record { lines = self.old.lines ++ line ∷ []; count = self.old.count + 1 } }
    {
        if self.count == MOST_LINES {
            return Put::Spent;
        }
        self.lines.push_back(line);
        self.count += 1;
        Put::Kept
    }

    /// The first unread line, which is read now.
    pub fn take(&mut self) -> Option<LineText>
        ensures first { result ≡ slice_get self.old.lines 0 }
        ensures rest { self.new ≡ record self.old { lines = drop 1 self.old.lines } }
    {
        self.lines.pop_front()
    }

    /// The first unread line, which stays.
    pub fn first(&self) -> Option<LineText>
        ensures { result ≡ slice_get self.now.lines 0 }
    {
        self.lines.front().copied()
    }

    /// Whether no line is unread.
    pub fn is_empty(&self) -> bool
        ensures { result ≡ nat_eq (length self.now.lines) 0 }
    {
        self.lines.is_empty()
    }

    /// How many lines came since the last restart.
    pub fn count(&self) -> u16
        ensures { result ≡ self.now.count }
    {
        self.count
    }

    /// Drops the unread lines. They still count.
    pub fn drop_all(&mut self)
        ensures { self.new ≡ record self.old { lines = [] } }
    {
        self.lines.clear();
    }

    /// Drops the unread lines, and counts from 0 again.
    pub fn restart(&mut self)
        ensures { self.new ≡ record { lines = []; count = 0 } }
    {
        self.lines.clear();
        self.count = 0;
    }
}
