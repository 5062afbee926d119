// Checks that rows are a zone.
ghost use Rattle.std.specs.Prelude.{◌≡◌, ◌<◌, None, Some, OnOk, IfErr, length};
ghost use Rattle.zone_rules.specs.Zones.{fault_at, zone_fault_of};

use crate::{ZoneFault, ZoneRow};

// The fault of the row at a place, if it has one.
fn row_fault(rows: &[ZoneRow], i: usize) -> Option<ZoneFault>
    requires { i < length rows.now }
    ensures { result ≡ fault_at rows.now i }
{
    let row = &rows[i];
    if row.offset < -1080 || row.offset > 1080 {
        return Some(ZoneFault::OffsetRange(i));
    }
    if i > 0 && row.start <= rows[i - 1].start {
        return Some(ZoneFault::NotRising(i));
    }
    None
}

/// Checks that rows are a zone, and names the first fault. Linear in the rows; it takes no memory.
pub fn check_rows(rows: &[ZoneRow]) -> Result<(), ZoneFault>
    ensures faultless { OnOk result (zone_fault_of rows.now ≡ None) }
    ensures refused { IfErr result (λ fault. zone_fault_of rows.now ≡ Some fault) }
{
    if rows.is_empty() {
        return Err(ZoneFault::Empty);
    }
    for i in 0..rows.len() {
        if let Some(fault) = row_fault(rows, i) {
            return Err(fault);
        }
    }
    Ok(())
}
