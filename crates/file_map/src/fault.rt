use ctss_types::{NoMemory, Refusal};
use thiserror::Error;

/// Why a call on a directory wasn't done.
#[derive(Clone, Copy, Debug, PartialEq, Eq, Error)]
pub enum PortFault {
    /// The operation's own refusal. Nothing is changed.
    #[error("{0}")]
    Refused(Refusal),
    #[error("the disk failed")]
    Disk,
    /// Nothing is changed.
    #[error("out of memory")]
    NoMemory,
}

impl From<NoMemory> for PortFault {
    ghost use Rattle.std.specs.Prelude.{◌≡◌};
    ghost use Rattle.file_map.specs.declared.fault.PortFault.TheVariants as fault;

    ghost from_gives = { λ _ e. e ≡ fault.NoMemory };

    fn from(_: NoMemory) -> PortFault {
        PortFault::NoMemory
    }
}
