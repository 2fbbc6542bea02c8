use ctss_types::NoMemory;

/// Why no record was made.
#[derive(Clone, Copy, Debug, PartialEq, Eq)]
pub enum ServingFault {
    /// The listener failed.
    Link,
    NoMemory,
}

impl From<NoMemory> for ServingFault {
    ghost use Rattle.std.specs.Prelude.{◌≡◌};
    ghost use Rattle.live_serve.specs.declared.fault.ServingFault.TheVariants as fault;

    ghost from_gives = { λ _ e. e ≡ fault.NoMemory };

    fn from(_: NoMemory) -> ServingFault {
        ServingFault::NoMemory
    }
}
