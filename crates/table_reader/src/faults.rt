// The faults for which a row is not added to a table.
ghost use Rattle.std.specs.Prelude.{◌≡◌};
ghost use Rattle.table_reader.specs.declared.faults.RowFault.{RowFault};

use route_base::{Cause, OutOfMemory};
use std::alloc::{AllocError, AllocFailed};

/// The reason why a row is not added to a table: the cause of its fault, or out of memory.
#[derive(Clone, Copy, Debug, PartialEq, Eq)]
pub enum RowFault {
    Bad(Cause),
    OutOfMemory,
}

impl From<OutOfMemory> for RowFault {
    ghost from_gives = { λ _ e. e ≡ RowFault.OutOfMemory };

    fn from(_: OutOfMemory) -> Self {
        RowFault::OutOfMemory
    }
}

impl From<AllocError> for RowFault {
    ghost from_gives = { λ _ e. e ≡ RowFault.OutOfMemory };

    fn from(_: AllocError) -> Self {
        RowFault::OutOfMemory
    }
}

impl<T: Drop> From<AllocFailed<T>> for RowFault {
    ghost from_gives = { λ _ e. e ≡ RowFault.OutOfMemory };

    fn from(_: AllocFailed<T>) -> Self {
        RowFault::OutOfMemory
    }
}
