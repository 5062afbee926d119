// The refusal of an itinerary's file.
ghost use Rattle.std.specs.Prelude.{◌≡◌};

use route_base::OutOfMemory;

/// The refusal of an itinerary's file: its first bad line, counted from 1, or out of memory.
#[derive(Clone, Copy, Debug, PartialEq, Eq)]
pub enum ItineraryFault {
    BadLine { line: u64 },
    OutOfMemory,
}

impl From<OutOfMemory> for ItineraryFault {
    ghost use Rattle.trip_explain.specs.declared.faults.ItineraryFault.TheVariants.{OutOfMemory};

    ghost from_gives = { λ _ e. e ≡ OutOfMemory };

    fn from(_: OutOfMemory) -> Self {
        ItineraryFault::OutOfMemory
    }
}
