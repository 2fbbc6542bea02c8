//! The calls that were made of a medium in memory.
ghost use Rattle.std.specs.Prelude.{◌≡◌, ◌≤◌, length, IfOk};
ghost use Rattle.medium.specs.Medium.{with_call, no_calls};

use faults::NoMemory;
use std::alloc::Global;
use std::marker::Model;

/// A call that was made, and how many words it gave.
#[derive(Clone, Copy)]
struct Made {
    is_write: bool,
    at: u16,
    failed: bool,
    len: usize,
}

/// The calls made so far, with the words that reads gave one after another. All memory is taken when
/// it is made.
#[derive(Drop)]
pub(crate) struct CallLog {
    tells: bool,
    room: u64,
    words_each: u16,
    made: Vec<Made>,
    given: Vec<u64>,
}

impl Model for CallLog {
    ghost use Rattle.medium.specs.LogState.{LogState};

    ghost Value = { LogState };

    ghost use Rattle.medium.specs.Log.{log_state, HasRoom};

    ghost view = { log_state };

    ghost invariant = { HasRoom };
}

impl CallLog {
    /// A list with room for so many calls, each of so many words at most. Without room it tells
    /// none.
    pub(crate) fn new(alloc: Global, words_each: u16, room: u64) -> Result<CallLog, NoMemory>
        ensures { IfOk result (λ log. log ≡ record {
          calls = no_calls room;
          words_each = words_each;
        }) }
    {
        let Some(words) = room.checked_mul(u64::from(words_each)) else {
            return Err(NoMemory);
        };
        Ok(CallLog {
            tells: room != 0,
            room,
            words_each,
            made: Vec::with_capacity(alloc, room as usize)?,
            given: Vec::with_capacity(alloc, words as usize)?,
        })
    }

    /// How many words a call may give.
    pub(crate) fn words_each(&self) -> u16
        ensures { result ≡ self.now.words_each }
    {
        self.words_each
    }

    /// Adds a call, which gave these words. Where there is no room, the calls are told no more.
    pub(crate) fn push(&mut self, is_write: bool, at: u16, failed: bool, words: &[u64])
        requires { length words.now ≤ self.old.words_each }
        ensures calls { self.new.calls ≡ with_call self.old.calls (record {
          is_write = is_write;
          at = at;
          failed = failed;
          words = words.now;
        }) }
        ensures each { self.new.words_each ≡ self.old.words_each }
    {
        if self.room == 0 {
            self.tells = false;
            return;
        }
        self.room -= 1;
        let len = words.len();
        self.made
            .push(Made {
                is_write,
                at,
                failed,
                len,
            })
            .unwrap();
        self.given.extend_from_slice(words).unwrap();
    }
}
