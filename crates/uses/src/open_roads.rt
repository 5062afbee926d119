// Opening hours: whether a ban holds at an instant.
ghost use Rattle.std.specs.Prelude.{◌↔◌, List, IsTrue, IfOk};
ghost use Rattle.std.specs.Result.{IsErrOf};
ghost use Rattle.route_base.specs.Time.{IsInstant};
ghost use Rattle.opening_hours.specs.Hours.{IsHours};
ghost use Rattle.opening_hours.specs.declared.types.HoursRule.{HoursRule};
ghost use Rattle.uses.specs.Words.{IsBannedAt};

use opening_hours::{Holidays, HoursFault, covers, one_reading, parse};
use route_base::Minute;
use std::alloc::Global;
use zone_rules::Zone;

/// Whether a ban with these hours holds at an instant, in the local time of a zone. `NotHours` comes exactly if the text isn't
/// one of hours. Linear in the text.
pub fn is_banned(
    alloc: Global,
    hours: &[u8],
    zone: &Zone,
    holidays: &Holidays,
    t: Minute,
) -> Result<bool, HoursFault>
    requires { IsInstant t }
    ensures banned { IfOk result (λ banned. (rules : List HoursRule) → IsHours hours.now rules
        → IsTrue banned ↔ IsBannedAt rules zone.now holidays.now t) }
    ensures read { IfOk result (λ banned. (rules : List HoursRule) × IsHours hours.now rules) }
    ensures refused { IsErrOf result HoursFault.NotHours
        → (rules : List HoursRule) → IsHours hours.now rules → ⊥ }
{
    let wall = zone.wall(t);
    match parse(alloc, hours) {
        Ok(rules) => Ok(covers(&rules, wall.day, wall.minute, holidays)),
        Err(fault) => Err(fault),
    }
}
