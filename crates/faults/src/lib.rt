//! Want of memory, and what contracts say of counts of faults.
#![tactic(auto)]

use std::alloc::{AllocError, AllocFailed};
use std::error::Error;
use std::fmt;

/// Memory ran out. It may come at any call that takes memory, and leaves the call's value as it was unless the
/// call says otherwise.
#[derive(Clone, Copy, Debug, PartialEq, Eq, Hash)]
pub struct NoMemory;

impl fmt::Display for NoMemory {
    ghost use Rattle.std.specs.Prelude.{Some, codes};

    ghost output = { λ _. Some (codes "out of memory") };

    fn fmt<W: fmt::Write>(&self, f: &mut fmt::Formatter<W>) -> fmt::Result {
        f.write_str("out of memory")
    }
}

impl Error for NoMemory {}

impl From<AllocError> for NoMemory {
    fn from(_: AllocError) -> NoMemory {
        NoMemory
    }
}

impl<T: Drop> From<AllocFailed<T>> for NoMemory {
    fn from(_: AllocFailed<T>) -> NoMemory {
        NoMemory
    }
}
