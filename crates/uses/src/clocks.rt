// Time zones: the local day and minute.
ghost use Rattle.std.specs.Prelude.{◌≡◌, ◌⊎◌, IfOk, IfErr, Some, None, OnOk};
ghost use Rattle.route_base.specs.Time.{IsInstant};
ghost use Rattle.zone_rules.specs.Zones.{wall_at, zone_fault_of};
ghost use Rattle.zone_rules.specs.declared.rows.ZoneFault.TheVariants.{OutOfMemory};

use route_base::Minute;
use std::alloc::Global;
use zone_rules::{Wall, Zone, ZoneFault, ZoneRow};

/// The local day and minute at an instant, by the rows of a zone. Linear in the rows.
pub fn clock_shows(alloc: Global, rows: &[ZoneRow], t: Minute) -> Result<Wall, ZoneFault>
    requires { IsInstant t }
    ensures wall { IfOk result (λ wall. wall ≡ wall_at rows.now t) }
    ensures faultless { OnOk result (zone_fault_of rows.now ≡ None) }
    ensures refused { IfErr result (λ fault.
        (fault ≡ OutOfMemory) ⊎ (zone_fault_of rows.now ≡ Some fault)) }
{
    match Zone::from_rows(alloc, rows) {
        Ok(zone) => Ok(zone.wall(t)),
        Err(fault) => Err(fault),
    }
}
