//! The calls that were made of a link in memory.
ghost use Rattle.std.specs.Prelude.{◌≡◌, IfOk};
ghost use Rattle.console_link.specs.Links.{with_call};
ghost use Rattle.console_link.specs.Memory.{no_calls, calls_told};

use crate::link::CallMade;
use faults::NoMemory;
use std::alloc::Global;
use std::marker::Model;

/// The calls made so far. All memory is taken when it is made.
#[derive(Drop)]
pub(crate) struct CallLog {
    tells: bool,
    room: u64,
    made: Vec<CallMade>,
}

impl Model for CallLog {
    ghost use Rattle.std.specs.Prelude.{◌+◌, ◌≤◌, Option, Some, None, if◌then◌else◌, length, vec_capacity};
    ghost use Rattle.console_link.specs.Links.{CallList};

    ghost Value = { Option CallList };

    ghost view = { λ l. if l.tells then Some (record { made = l.made.items; room = l.room }) else None };

    ghost invariant = { λ l. length l.made.items + l.room ≤ vec_capacity l.made };
}

impl CallLog {
    /// A list with room for so many calls. Without room it tells none.
    pub(crate) fn new(alloc: Global, room: u64) -> Result<CallLog, NoMemory>
        ensures { IfOk result (λ log. log ≡ no_calls room) }
    {
        Ok(CallLog {
            tells: room != 0,
            room,
            made: Vec::with_capacity(alloc, room as usize)?,
        })
    }

    /// The calls made so far, none where they are not told.
    pub(crate) fn calls(&self) -> &[CallMade]
        ensures { result.now ≡ calls_told self.now }
    {
        if self.tells {
            self.made.as_slice()
        } else {
            &[]
        }
    }

    /// Adds a call. Where there is no room, the calls are told no more.
    pub(crate) fn push(&mut self, call: CallMade)
        ensures { self.new ≡ with_call self.old call }
    {
        if self.room == 0 {
            self.tells = false;
            return;
        }
        self.room -= 1;
        let call: CallMade = call;
        self.made.push(call).unwrap();
    }
}
