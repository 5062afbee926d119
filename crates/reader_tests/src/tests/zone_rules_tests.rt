// The fault of rows, and what the wall shows at some minutes.
use route_base::Minute;
use route_base::limits::{FIRST_INSTANT, LAST_INSTANT};
use std::alloc::Global;
use zone_rules::{Wall, Zone, ZoneFault, ZoneRow};

// The first minute and the offset of a row.
type Row = (Minute, i64);

// The zone of these rows.
fn zone_of(alloc: Global, rows: &[Row]) -> Result<Zone, ZoneFault> {
    let mut list = Vec::new(alloc);
    for (start, offset) in rows {
        let row = ZoneRow {
            start: *start,
            offset: *offset,
        };
        if list.push(row).is_err() {
            return Err(ZoneFault::OutOfMemory);
        }
    }
    Zone::from_rows(alloc, &list)
}

// Rows, and their first fault.
const FAULTS: &[(&[Row], ZoneFault)] = &[
    (&[], ZoneFault::Empty),
    (&[(525_600, 0), (525_600, 60)], ZoneFault::NotRising(1)),
    (&[(525_600, 1_081)], ZoneFault::OffsetRange(0)),
    (
        &[(525_600, -1_080), (525_600, -1_081)],
        ZoneFault::OffsetRange(1),
    ),
];

#[test]
fn names_the_first_fault(rt: HostRuntime) {
    for (rows, fault) in FAULTS {
        let found = zone_of(rt.alloc(), rows).err();
        assert!(rt; found == Some(*fault), "{fault:?}");
    }
}

// Rows, and the offset and the day and minute of the wall at a minute.
const SHOWN: &[(&[Row], Minute, i64, (u32, u32))] = &[
    (&[(525_600, 60)], 26_563_680, 60, (18_447, 60)),
    (&[(525_600, -210)], 26_563_680, -210, (18_446, 1_230)),
    (CHANGING, 525_600, 60, (365, 60)),
    (CHANGING, 699_999, 60, (486, 219)),
    (CHANGING, 700_000, 120, (486, 280)),
    (CHANGING, 799_999, 120, (555, 919)),
    (CHANGING, 800_000, 60, (555, 860)),
    (CHANGING, 120_968_639, 60, (84_006, 59)),
];

// Clocks that go ahead for a while.
const CHANGING: &[Row] = &[(600_000, 60), (700_000, 120), (800_000, 60)];

// Whether the zone of these rows has this offset at a minute, and the wall shows this day and minute.
fn shows(alloc: Global, rows: &[Row], t: Minute, offset: i64, (day, minute): (u32, u32)) -> bool {
    if t < FIRST_INSTANT || t > LAST_INSTANT {
        return false;
    }
    match zone_of(alloc, rows) {
        Ok(zone) => zone.offset(t) == offset && zone.wall(t) == Wall { day, minute },
        Err(_) => false,
    }
}

#[test]
fn shows_the_wall(rt: HostRuntime) {
    for (rows, t, offset, wall) in SHOWN {
        let shown = shows(rt.alloc(), rows, *t, *offset, *wall);
        assert!(rt; shown, "{offset} at {t}");
    }
}
