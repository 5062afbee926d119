// The refusal of a graph file.
ghost use Rattle.std.specs.Prelude.{◌≡◌};
ghost use Rattle.dimacs_reader.specs.declared.faults.GraphFault.TheVariants.{OutOfMemory};

use route_base::Cause;
use std::alloc::{AllocError, AllocFailed};

/// The refusal of a graph file: its first fault, by the number of the line from 1 and the cause, where the end of the file
/// counts as the line after the last; or out of memory.
#[derive(Clone, Copy, Debug, PartialEq, Eq)]
pub enum GraphFault {
    BadLine { line: u64, cause: Cause },
    OutOfMemory,
}

impl From<AllocError> for GraphFault {
    ghost from_gives = { λ _ e. e ≡ OutOfMemory };

    fn from(_: AllocError) -> Self {
        GraphFault::OutOfMemory
    }
}

impl<T: Drop> From<AllocFailed<T>> for GraphFault {
    ghost from_gives = { λ _ e. e ≡ OutOfMemory };

    fn from(_: AllocFailed<T>) -> Self {
        GraphFault::OutOfMemory
    }
}
