ghost use Rattle.std.specs.Prelude.{◌≡◌};
ghost use Rattle.hub_index.specs.declared.build_fault.BuildFault.TheVariants.{NoMemory};

use std::alloc::AllocError;

/// Why no index was built.
#[derive(Clone, Copy, Debug, PartialEq, Eq)]
pub enum BuildFault {
    /// The node `hub` is a hub of the node `v` at a distance of 2^64 or more, which no index keeps; the first such pair by rising
    /// `v` and then by falling rank of the hub.
    Overflow { v: u32, hub: u32 },
    /// Memory ran out.
    NoMemory,
}

impl From<AllocError> for BuildFault {
    ghost from_gives = { λ _ fault. fault ≡ NoMemory };

    fn from(_error: AllocError) -> BuildFault {
        BuildFault::NoMemory
    }
}
