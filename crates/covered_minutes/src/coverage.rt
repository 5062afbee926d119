// The minutes of UTC that hours cover in a zone.
ghost use Rattle.std.specs.Prelude.{◌≡◌, ◌<◌, ◌≤◌, ◌&&◌, ◌+ℤ◌, pos, unsigned_abs, ℕ, OnOk, IfOk, IsTrue, max, length, get_or};
ghost use Rattle.route_base.specs.Runs.{has_minute, any_has, AreRuns};
ghost use Rattle.zone_rules.specs.Zones.{IsZone, is_offset};
ghost use Rattle.covered_minutes.specs.Coverage.{IsWindow, covered_at};
ghost use Rattle.covered_minutes.specs.LocalDays.{Adds, local_covered, local_of};

use crate::local_days::{Stretch, add_stretch};
use minute_sets::MinuteSet;
use opening_hours::{Holidays, Hours};
use route_base::{Minute, OutOfMemory, Run};
use std::alloc::Global;
use zone_rules::{Zone, ZoneRow};

// The minutes that the row's local time is ahead of a clock that is 18 hours behind UTC.
fn ahead_of(row: ZoneRow) -> u64
    requires { IsTrue (is_offset row.offset) }
    ensures most { result ≤ 2160 }
    ensures local { (t : ℕ) → 1080 ≤ t → unsigned_abs (pos t +ℤ row.offset) ≡ local_of result t }
{
    (row.offset + 1080) as u64
}

// The start of the first row, or the end where that comes first, but nothing before `from`.
fn change_after(from: Minute, rows: &[ZoneRow], end: Minute) -> Minute
    ensures from { from ≤ result }
    ensures end { result ≤ max from end }
    ensures start { (d : ZoneRow) → 0 < length rows.now →
        result ≤ max from (get_or rows.now 0 d).start }
    ensures none { length rows.now ≡ 0 → result ≡ max from end }
    ensures some { result < end → (d : ZoneRow) → (get_or rows.now 0 d).start ≤ result }
{
    match rows {
        [row, ..] => row.start.min(end).max(from),
        [] => end.max(from),
    }
}

// Adds the covered ones of some minutes, throughout which the row is in force.
fn add_minutes(
    alloc: Global,
    runs: &mut Vec<Run>,
    hours: &Hours,
    row: ZoneRow,
    holidays: &Holidays,
    minutes: Run,
) -> Result<(), OutOfMemory>
    requires offset { IsTrue (is_offset row.offset) }
    requires window { IsWindow minutes }
    ensures { OnOk result (Adds runs.old.items runs.new.items (λ t. has_minute t minutes
        && local_covered hours.now holidays.now (unsigned_abs (pos t +ℤ row.offset)))) }
{
    if minutes.hi <= minutes.lo {
        return Ok(());
    }
    let ahead = ahead_of(row);
    add_stretch(alloc, runs, hours, holidays, Stretch { minutes, ahead })?;
    Ok(())
}

// Adds the minutes of the window that are covered in local time, one part after another from each change of the offset on.
fn add_rows(
    alloc: Global,
    runs: &mut Vec<Run>,
    hours: &Hours,
    rows: &[ZoneRow],
    holidays: &Holidays,
    window: Run,
) -> Result<(), OutOfMemory>
    requires zone { IsZone rows.now }
    requires window { IsWindow window }
    ensures { OnOk result (Adds runs.old.items runs.new.items (λ t.
        has_minute t window && covered_at hours.now holidays.now rows.now t)) }
{
    let mut from: Minute = window.lo;
    let mut left = rows;
    'rows: while let [row, rest @ ..] = left {
        let until = change_after(from, rest, window.hi);
        let part = Run {
            lo: from,
            hi: until,
        };
        add_minutes(alloc, runs, hours, *row, holidays, part)?;
        from = until;
        left = rest;
    }
    Ok(())
}

/// The minutes of the window that the hours cover in local time. An hour that clocks repeat is covered both times, and an hour
/// that they skip not at all.
///
/// For each local day from seven days before the window on it takes the time and memory of one `spans_on`, and of eight more for
/// each change of the offset within the window; then it is linear in the rows of the zone, and n log n in the n runs. It takes
/// memory for 3 n runs.
pub fn covered_minutes(
    alloc: Global,
    hours: &Hours,
    zone: &Zone,
    holidays: &Holidays,
    window: Run,
) -> Result<MinuteSet, OutOfMemory>
    requires { IsWindow window }
    ensures minutes { IfOk result (λ set. (t : ℕ) → any_has set t
        ≡ (has_minute t window && covered_at hours.now holidays.now zone.now t)) }
    ensures runs { IfOk result AreRuns }
{
    let mut runs = Vec::new(alloc);
    add_rows(alloc, &mut runs, hours, zone.rows(), holidays, window)?;
    MinuteSet::from_runs(alloc, &runs)
}
