// The faults for which a network is not read.
ghost use Rattle.std.specs.Prelude.{◌≡◌};
ghost use Rattle.network_tables.specs.declared.faults.NetworkFault.{NetworkFault};

use route_base::{BadInput, OutOfMemory};

/// The reason why a network is not read: the first fault of its files, or out of memory.
#[derive(Clone, Copy, Debug, PartialEq, Eq)]
pub enum NetworkFault {
    Bad(BadInput),
    OutOfMemory,
}

impl From<OutOfMemory> for NetworkFault {
    ghost from_gives = { λ _ e. e ≡ NetworkFault.OutOfMemory };

    fn from(_: OutOfMemory) -> Self {
        NetworkFault::OutOfMemory
    }
}
