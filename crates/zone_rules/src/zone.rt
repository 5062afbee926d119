// Zones: offsets, local days and minutes.
ghost use Rattle.std.specs.Prelude.{◌≡◌, ◌<◌, ◌≤◌, ◌⊎◌, ◌≤ℤ◌, None, Some, IfOk, OnOk, IfErr, IsTrue, pos, neg_ℤ};
ghost use Rattle.route_base.specs.Time.{IsInstant};
ghost use Rattle.zone_rules.specs.declared.rows.ZoneFault.TheVariants.{OutOfMemory};
ghost use Rattle.zone_rules.specs.Zones.{IsZone, is_offset, zone_fault_of, row_at, offset_at, wall_at};

use crate::row_checks::check_rows;
use crate::{Wall, ZoneFault, ZoneRow};
use route_base::Minute;
use std::alloc::Global;
use std::marker::Model;

/// A time zone: rows in the order of their starts, which contracts see as a list. At any minute the latest row that has started
/// is in force; before the first start, the first row is.
pub struct Zone {
    rows: Vec<ZoneRow>,
}

impl Model for Zone {
    ghost use Rattle.std.specs.Prelude.{List};
    ghost use Rattle.zone_rules.specs.declared.rows.ZoneRow.{ZoneRow};
    ghost use Rattle.zone_rules.specs.Zones.{IsZone};

    ghost Value = { List ZoneRow };

    ghost view = { λ z. z.rows.items };

    ghost invariant = { λ z. IsZone z.rows.items };
}

// By hand, so that the drops of its parts are proved here alone.
impl Drop for Zone {
    fn drop(self) {
        let Zone { rows: _ } = self;
    }
}

impl Zone {
    /// The zone of these rows. Linear in them, in time and memory.
    ///
    /// It fails with `Empty` if there are no rows, and otherwise with the fault of the first faulty row: `OffsetRange` if its offset
    /// isn't from -1,080 to 1,080 minutes, else `NotRising` if it doesn't start after the row before it. `OutOfMemory` means
    /// that there was no memory for the rows.
    pub fn from_rows(alloc: Global, rows: &[ZoneRow]) -> Result<Zone, ZoneFault>
        ensures same { IfOk result (λ zone. zone ≡ rows.now) }
        ensures faultless { OnOk result (zone_fault_of rows.now ≡ None) }
        ensures refused { IfErr result (λ fault. (fault ≡ OutOfMemory) ⊎
            (zone_fault_of rows.now ≡ Some fault)) }
    {
        check_rows(rows)?;
        Ok(Zone {
            rows: Vec::from_slice(alloc, rows)?,
        })
    }

    /// The rows, in the order of their starts. In constant time.
    pub fn rows(&self) -> &[ZoneRow]
        ensures same { result.now ≡ self.now }
        ensures zone { IsZone self.now }
    {
        &self.rows
    }

    /// The minutes that local time is ahead of UTC. Logarithmic in the rows; no memory.
    pub fn offset(&self, t: Minute) -> i64
        requires { IsInstant t }
        ensures value { result ≡ offset_at self.now t }
        ensures low { neg_ℤ (pos 1080) ≤ℤ result }
        ensures high { result ≤ℤ pos 1080 }
    {
        current_row(&self.rows, t).offset
    }

    /// The local day and minute of the day. Logarithmic in the rows; no memory.
    pub fn wall(&self, t: Minute) -> Wall
        requires { IsInstant t }
        ensures value { result ≡ wall_at self.now t }
        ensures minute { result.minute < 1440 }
        ensures low { 7 ≤ result.day }
        ensures high { result.day ≤ 84370 }
    {
        let local = (t as i64 + self.offset(t)) as u64;
        Wall {
            day: (local / 1440) as u32,
            minute: (local % 1440) as u32,
        }
    }
}

// The row in force at minute t, found by binary search.
fn current_row(rows: &[ZoneRow], t: Minute) -> ZoneRow
    requires { IsZone rows.now }
    ensures value { row_at rows.now t ≡ Some result }
    ensures offset { IsTrue (is_offset result.offset) }
{
    let started = rows.partition_point(|row| row.start <= t);
    rows[started.saturating_sub(1)]
}
