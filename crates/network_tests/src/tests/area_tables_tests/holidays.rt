// The holidays of arcs.
use crate::tests::network_tables_tests::{AREAS, read};
use network_tables::Network;
use route_base::{ArcId, FileKind};
use std::alloc::Global;

// Whether a day is a public holiday and whether it is a school holiday, at an arc; none where the triangle has no such arc.
fn holidays_on(network: &Network, a: u32, day: u32) -> Option<(bool, bool)> {
    if a == 0 || a > 3 || network.graph().arc_count() != 3 {
        return None;
    }
    let holidays = network.holidays_of(network.area_of(ArcId(a)));
    Some((holidays.is_public(day), holidays.is_school(day)))
}

// Arcs and days, and whether each is a public holiday and a school holiday there.
const DAYS: &[(u32, u32, bool, bool)] = &[
    (2, 18_261, false, false),
    (2, 18_262, true, false),
    (2, 18_263, false, false),
    (2, 18_449, false, true),
    (2, 18_620, false, false),
    (2, 18_621, true, false),
    (2, 18_622, false, false),
    (1, 18_621, false, false),
    (1, 18_449, false, false),
];

const TEXTS: &[(FileKind, &str)] = &[
    (FileKind::Areas, AREAS),
    (FileKind::Roads, "arc,area\n2,town\n"),
    (
        FileKind::Holidays,
        "area,kind,date\ntown,PH,2020-12-25\ntown,SH,2020-07-06\ntown,PH,2020-01-01\ntown,PH,2020-12-25\n",
    ),
];

// Whether the network has these holidays.
fn has_holidays(network: &Network, days: &[(u32, u32, bool, bool)]) -> bool {
    let mut has = true;
    for (a, day, public, school) in days {
        has = has && holidays_on(network, *a, *day) == Some((*public, *school));
    }
    has
}

// Whether a network with them is read.
fn reads_days(alloc: Global) -> bool {
    match read(alloc, TEXTS) {
        Ok(network) => has_holidays(&network, DAYS),
        Err(_) => false,
    }
}

#[test]
fn reads_holidays_of_both_kinds(rt: HostRuntime) {
    assert!(rt; reads_days(rt.alloc()));
}
