//! A drum, a disk and a link in memory.
ghost use Rattle.std.specs.Prelude.{IfOk};
ghost use Rattle.promises.specs.Machines.{IsReady};

use console_link::{LinkAt, MemoryLink, Peer};
use faults::NoMemory;
use medium::MemoryMedium;
use std::alloc::Global;

/// A drum and a disk in memory, whose records are observable, and a link in memory.
#[derive(Drop)]
pub struct Machine {
    pub drum: MemoryMedium,
    pub disk: MemoryMedium,
    pub link: MemoryLink,
}

impl Machine {
    /// A drum of 3840 records of 256 words, a disk of 10,000 of 432 words, and a link without peers. The drum's and the disk's
    /// calls with these numbers fail, where the first has number 1. The drum lists at most `room` calls.
    #[tactic(auto, using(crate::proofs::Ready::shape, crate::proofs::Ready::as_long))]
    pub fn new(
        alloc: Global,
        drum_fails: &[u64],
        disk_fails: &[u64],
        room: u64,
    ) -> Result<Machine, NoMemory>
        ensures { IfOk result IsReady }
    {
        Ok(Machine {
            drum: MemoryMedium::new(alloc, 3840, 256, drum_fails, &[], room)?,
            disk: MemoryMedium::new(alloc, 10000, 432, disk_fails, &[], 0)?,
            link: MemoryLink::new(alloc, &[], &[], &[], 0, 0)?,
        })
    }
}
