//! The consoles with their connections, as far as the callers decide what becomes of them.
use crate::case::Caller;
use crate::plan::Plan;
use crate::talk::Talk;
use console_link::LinkCall;
use std::alloc::{AllocError, Global};

/// How many consoles there are, and the most connections of a turn.
const CONSOLES: usize = 32;

/// The connections that have a console, the callers, how many of these were accepted, and how often the link was asked for one.
#[derive(Drop)]
pub(crate) struct Desk<'a> {
    talks: Vec<Talk<'a>>,
    callers: &'a [Caller],
    accepted: u32,
    asked: u64,
}

impl<'a> Desk<'a> {
    /// No connection yet.
    pub(crate) fn new(alloc: Global, callers: &'a [Caller]) -> Desk<'a> {
        Desk {
            talks: Vec::new(alloc),
            callers,
            accepted: 0,
            asked: 0,
        }
    }

    /// The next caller, where one waits in this turn.
    fn next(&self, turn: u32) -> Option<&'a Caller> {
        let caller = self.callers.get(self.accepted as usize)?;
        if caller.turn <= turn {
            Some(caller)
        } else {
            None
        }
    }

    /// The accepts of a turn: who finds no free console has none.
    pub(crate) fn accept(&mut self, turn: u32, plan: &mut Plan) -> Result<(), AllocError> {
        for _ in 0..CONSOLES {
            self.asked = self.asked.saturating_add(1);
            let Some(caller) = self.next(turn) else {
                return plan.waits(LinkCall::Accept, self.asked);
            };
            if self.talks.len() < CONSOLES {
                self.talks.push(Talk::new(self.accepted, caller))?;
            }
            self.accepted = self.accepted.saturating_add(1);
        }
        Ok(())
    }

    /// The reads of a turn. Consoles whose connection is over are free behind it.
    pub(crate) fn hear(&mut self, turn: u32, plan: &mut Plan) -> Result<(), AllocError> {
        for talk in &mut self.talks {
            talk.hear(turn, plan)?;
        }
        self.talks.retain(|talk| !talk.is_over);
        Ok(())
    }
}
