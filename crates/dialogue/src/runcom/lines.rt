ghost use Rattle.std.specs.Prelude.{◌≡◌, ◌≤◌, ◌+◌, ◌++◌, [], slice_get, nat_eq, length, drop, IfOk};

use circular_buffer::HeapCircularBuffer;
use ctss_types::{LineText, NoMemory};
use std::alloc::Global;
use std::marker::Model;

/// The most lines of command files that are unread at once.
pub const MOST_LINES: u16 = 256;

/// The unread lines of command files, in order. It takes all its memory when it is made.
#[derive(Drop)]
pub struct CommandLines {
    lines: HeapCircularBuffer<LineText>,
}

impl Model for CommandLines {
    ghost use Rattle.std.specs.Prelude.{◌≡◌, ◌≤◌, ℕ, List, length};

    ghost Value = { List (List ℕ) };

    ghost view = { λ l. l.lines.items };

    ghost invariant = { λ l. (l.lines.capacity ≡ 256) × (length l.lines.items ≤ 256) };
}

impl CommandLines {
    /// No lines, and room for 256.
    pub fn new(alloc: Global) -> Result<CommandLines, NoMemory>
        ensures { IfOk result (λ l. l ≡ []) }
    {
        let lines = HeapCircularBuffer::with_capacity(alloc, usize::from(MOST_LINES))?;
        Ok(CommandLines { lines })
    }

    /// Lines before those that are unread.
    pub fn put_front(&mut self, lines: &[LineText])
        requires fits { length lines.now + length self.old ≤ 256 }
        ensures { self.new ≡ lines.now ++ self.old }
    {
        let mut left = lines.len();
        'lines: while 0 < left {
            left -= 1;
            let _ = self.lines.push_front(lines[left]);
        }
    }

    /// The first line, which is read now.
    pub fn take(&mut self) -> Option<LineText>
        ensures first { result ≡ slice_get self.old 0 }
        ensures rest { self.new ≡ drop 1 self.old }
    {
        self.lines.pop_front()
    }

    /// The first line, which stays.
    pub fn first(&self) -> Option<LineText>
        ensures { result ≡ slice_get self.now 0 }
    {
        self.lines.front().copied()
    }

    /// How many lines are unread.
    pub fn len(&self) -> u16
        ensures value { result ≡ length self.now }
        ensures most { result ≤ 256 }
    {
        self.lines.len() as u16
    }

    /// Whether no line is unread.
    pub fn is_empty(&self) -> bool
        ensures { result ≡ nat_eq (length self.now) 0 }
    {
        self.lines.is_empty()
    }

    /// Drops the unread lines.
    pub fn drop_all(&mut self)
        ensures { self.new ≡ [] }
    {
        self.lines.clear();
    }
}
