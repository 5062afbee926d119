// Conditional values: the access that a rule gives a vehicle at an instant.
ghost use Rattle.std.specs.Prelude.{◌≡◌, List, IfOk};
ghost use Rattle.std.specs.Result.{IsErrOf};
ghost use Rattle.route_base.specs.Time.{IsInstant};
ghost use Rattle.conditional_rules.specs.Conditions.{IsConditional};
ghost use Rattle.conditional_rules.specs.Decisions.{decision};
ghost use Rattle.conditional_rules.specs.declared.conditional.Clause.{Clause};
ghost use Rattle.zone_rules.specs.Zones.{wall_at};

use conditional_rules::{Access, ConditionalFault, decide, parse};
use opening_hours::Holidays;
use route_base::Minute;
use std::alloc::Global;
use vehicle_classes::Vehicle;
use zone_rules::Zone;

/// The access that a conditional value gives a vehicle at an instant, in the local time of a zone; `None` if no clause holds.
/// `NotConditional` comes exactly if the text isn't a conditional value. Linear in the text.
pub fn access_given(
    alloc: Global,
    text: &[u8],
    vehicle: &Vehicle,
    zone: &Zone,
    holidays: &Holidays,
    t: Minute,
) -> Result<Option<Access>, ConditionalFault>
    requires { IsInstant t }
    ensures given { IfOk result (λ given. (clauses : List Clause) → IsConditional text.now clauses
        → given ≡ decision vehicle.now holidays.now (wall_at zone.now t).day (wall_at zone.now t).minute clauses) }
    ensures read { IfOk result (λ given. (clauses : List Clause) × IsConditional text.now clauses) }
    ensures refused { IsErrOf result ConditionalFault.NotConditional
        → (clauses : List Clause) → IsConditional text.now clauses → ⊥ }
{
    let wall = zone.wall(t);
    match parse(alloc, text) {
        Ok(conditional) => Ok(decide(&conditional, vehicle, wall.day, wall.minute, holidays)),
        Err(fault) => Err(fault),
    }
}
