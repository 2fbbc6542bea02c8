//! Which calls of a link fail or are not ready, so that a link without turns answers as the callers of a case do.
use crate::case::Caller;
use crate::desk::Desk;
use console_link::{LinkAt, LinkCall};
use std::alloc::{AllocError, Global};

/// The calls of a link that fail, those that are not ready, and how many pieces each caller sends.
#[derive(Drop)]
pub(crate) struct Plan {
    pub(crate) fails: Vec<LinkAt>,
    pub(crate) not_ready: Vec<LinkAt>,
    pub(crate) counts: Vec<usize>,
}

impl Plan {
    /// Everything is ready, and each caller sends all pieces.
    fn new(alloc: Global, callers: &[Caller]) -> Result<Plan, AllocError> {
        let mut counts = Vec::new(alloc);
        for caller in callers {
            counts.push(caller.pieces.len())?;
        }
        Ok(Plan {
            fails: Vec::new(alloc),
            not_ready: Vec::new(alloc),
            counts,
        })
    }

    /// A call that is not ready.
    pub(crate) fn waits(&mut self, call: LinkCall, number: u64) -> Result<(), AllocError> {
        self.not_ready.push(LinkAt { call, number })?;
        Ok(())
    }

    /// A call that fails.
    pub(crate) fn fails(&mut self, call: LinkCall, number: u64) -> Result<(), AllocError> {
        self.fails.push(LinkAt { call, number })?;
        Ok(())
    }

    /// A caller that ends behind so many pieces: the others don't come.
    pub(crate) fn ends(&mut self, id: u32, pieces: usize) {
        if let Some(count) = self.counts.get_mut(id as usize) {
            *count = pieces;
        }
    }
}

/// The calls of so many turns with these callers.
pub(crate) fn plan_of(alloc: Global, turns: u32, callers: &[Caller]) -> Result<Plan, AllocError> {
    let mut plan = Plan::new(alloc, callers)?;
    let mut desk = Desk::new(alloc, callers);
    for turn in 0..turns {
        desk.accept(turn, &mut plan)?;
        desk.hear(turn, &mut plan)?;
    }
    Ok(plan)
}
