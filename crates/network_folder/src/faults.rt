// Why no network is loaded.
ghost use Rattle.std.specs.Prelude.{◌≡◌};
ghost use Rattle.network_folder.specs.declared.faults.LoadFault.{LoadFault};

use route_base::{BadInput, OutOfMemory};

/// Why files give no network: the first fault of the files, reading failed, or memory ran out.
#[derive(Clone, Copy, Debug, PartialEq, Eq)]
pub enum LoadFault {
    /// The first fault of the files.
    Bad(BadInput),
    /// The folder couldn't be read.
    Failed,
    /// Out of memory.
    OutOfMemory,
}

impl From<OutOfMemory> for LoadFault {
    ghost from_gives = { λ _ e. e ≡ LoadFault.OutOfMemory };

    fn from(_: OutOfMemory) -> Self {
        LoadFault::OutOfMemory
    }
}
