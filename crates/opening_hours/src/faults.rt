// The fault of a text that has no hours.
use route_base::OutOfMemory;

/// The fault of a text that has no hours.
#[derive(Clone, Copy, Debug, PartialEq, Eq)]
pub enum HoursFault {
    /// The text has no rules.
    NotHours,
    /// Out of memory.
    OutOfMemory,
}

impl From<OutOfMemory> for HoursFault {
    ghost use Rattle.std.specs.Prelude.{◌≡◌};
    ghost use Rattle.opening_hours.specs.declared.faults.HoursFault.TheVariants as faults;

    ghost from_gives = { λ _ e. e ≡ faults.OutOfMemory };

    fn from(_error: OutOfMemory) -> HoursFault {
        HoursFault::OutOfMemory
    }
}
