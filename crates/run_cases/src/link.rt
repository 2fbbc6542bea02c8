//! The link of a case.
use crate::case::{Caller, Case};
use crate::plan::plan_of;
use anyhow::{Result, bail};
use console_link::{MemoryLink, Peer};
use std::alloc::{AllocError, Global};

/// The most bytes that are sent to a connection in a turn.
const MOST: usize = 4096;

/// The peers that send so many pieces of what the callers of a case do.
fn peers_of(alloc: Global, callers: &[Caller], counts: &[usize]) -> Result<Vec<Peer>, AllocError> {
    let mut peers = Vec::new(alloc);
    for (caller, count) in callers.iter().zip(counts) {
        let mut pieces = Vec::new(alloc);
        for piece in caller.pieces.iter().take(*count) {
            pieces.push(piece.bytes.as_slice().to_vec(alloc)?)?;
        }
        peers.push(Peer {
            pieces,
            ends: caller.over.is_some(),
        })?;
    }
    Ok(peers)
}

/// The link over which a case is served, with room for all that can be sent, and for its calls where they are told.
pub(crate) fn link_of(alloc: Global, case: &Case) -> Result<MemoryLink> {
    let turns = case.turns.unwrap_or(0);
    let mut plan = plan_of(alloc, turns, &case.callers)?;
    plan.fails.extend_from_slice(&case.link_fails)?;
    plan.not_ready.extend_from_slice(&case.link_waits)?;
    let peers = peers_of(alloc, &case.callers, &plan.counts)?;
    if u32::try_from(peers.len()).is_err() {
        bail!("too many callers");
    }
    let told = if case.tells_calls { 328_100 } else { 0 };
    let room = MOST * turns as usize;
    let link = MemoryLink::new(alloc, &peers, &plan.fails, &plan.not_ready, told, room)?;
    Ok(link)
}
