// The fault of a text that is no conditional value.
use route_base::OutOfMemory;

/// The fault of a text that is no conditional value.
#[derive(Clone, Copy, Debug, PartialEq, Eq)]
pub enum ConditionalFault {
    /// The text has no clauses.
    NotConditional,
    /// Out of memory.
    OutOfMemory,
}

impl From<OutOfMemory> for ConditionalFault {
    ghost use Rattle.std.specs.Prelude.{◌≡◌};
    ghost use Rattle.conditional_rules.specs.declared.faults.ConditionalFault.TheVariants as faults;

    ghost from_gives = { λ _ e. e ≡ faults.OutOfMemory };

    fn from(_error: OutOfMemory) -> ConditionalFault {
        ConditionalFault::OutOfMemory
    }
}
