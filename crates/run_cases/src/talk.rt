//! One connection.
ghost use Rattle.std.specs.Prelude.{◌<◌, IfSome};

use crate::case::Caller;
use crate::plan::Plan;
use console_link::LinkCall;
use std::alloc::AllocError;

/// The most bytes that are read of a connection in a turn.
const MOST: usize = 1024;

/// What is left of a piece, and the turn in which it becomes ready.
#[derive(Clone, Copy)]
struct Rest {
    count: usize,
    turn: u32,
}

/// A caller's connection: its number, how often it was read, which piece is read next, how many of its bytes were read, and whether
/// the connection is over.
#[derive(Drop)]
pub(crate) struct Talk<'a> {
    id: u32,
    caller: &'a Caller,
    reads: u64,
    piece: usize,
    place: usize,
    pub(crate) is_over: bool,
}

impl<'a> Talk<'a> {
    /// A connection that was not read yet.
    pub(crate) fn new(id: u32, caller: &'a Caller) -> Talk<'a> {
        Talk {
            id,
            caller,
            reads: 0,
            piece: 0,
            place: 0,
            is_over: false,
        }
    }

    /// Goes to the next byte that is not read, and answers what is left of its piece; none where all is read.
    fn next(&mut self) -> Option<Rest>
        ensures { IfSome result (λ rest. 0 < rest.count) }
    {
        for piece in self.caller.pieces.iter().skip(self.piece) {
            if self.place < piece.bytes.len() {
                return Some(Rest {
                    count: piece.bytes.len() - self.place,
                    turn: piece.turn,
                });
            }
            self.piece = self.piece.saturating_add(1);
            self.place = 0;
        }
        None
    }

    /// The reads of a turn: until one is not ready, over or fails, or so many bytes were given.
    pub(crate) fn hear(&mut self, turn: u32, plan: &mut Plan) -> Result<(), AllocError> {
        let call = LinkCall::Read(self.id);
        let mut room = MOST;
        let mut fails = self.caller.fails.contains(&turn);
        'reading: while room > 0 {
            self.reads = self.reads.saturating_add(1);
            if fails {
                self.is_over = true;
                return plan.fails(call, self.reads);
            }
            fails = false;
            match self.next() {
                Some(rest) if rest.turn <= turn => {
                    let count = rest.count.min(room);
                    self.place = self.place.saturating_add(count);
                    room -= count;
                }
                _ if self.caller.over.is_some_and(|over| over <= turn) => {
                    self.is_over = true;
                    plan.ends(self.id, self.piece);
                    return Ok(());
                }
                _ => return plan.waits(call, self.reads),
            }
        }
        Ok(())
    }
}
