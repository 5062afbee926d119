// The rules of a network.
use crate::tests::network_tables_tests::{is_refused, ruled, table};
use conditional_rules::{Access, Conditional};
use network_tables::{Network, NetworkFault};
use route_base::{ArcId, Cause, FileKind, OutOfMemory};
use std::alloc::Global;
use vehicle_classes::Key;

const RULE_HEADER: &str = "scope,key,value\n";

// The rules of the happy path.
const RULES: &str = "\
scope,key,value\n\
area:town,hgv,no\n\
area:town,hgv:conditional,yes @ off; destination @ 24/7\n\
arc:02,access,destination\n\
arc:3,access,designated\n\
arc:3,bus:conditional,no @ (Mo 22:00-06:00; PH off)\n\
arc:3,maxweight,7.5\n\
arc:3,maxweight,7.5\n\
area:port,hgv:forward,no\n";

// The plain values for a key, of the arc's area and of the arc itself; none where there is no such arc.
fn plain_of(network: &Network, a: u32, key: Key) -> (Option<Access>, Option<Access>) {
    if a == 0 || a > network.graph().arc_count() {
        return (None, None);
    }
    let area = network.area_of(ArcId(a));
    (
        network.area_plain(area, key),
        network.arc_plain(ArcId(a), key),
    )
}

// The number of clauses, 0 where there is no conditional value.
fn clauses(value: Option<&Conditional>) -> usize {
    match value {
        Some(conditional) => conditional.len(),
        None => 0,
    }
}

// The numbers of clauses for a key, of the arc's area and of the arc itself; none where there is no such arc.
fn clauses_of(network: &Network, a: u32, key: Key) -> (usize, usize) {
    if a == 0 || a > network.graph().arc_count() {
        return (0, 0);
    }
    let area = network.area_of(ArcId(a));
    (
        clauses(network.area_conditional(area, key)),
        clauses(network.arc_conditional(ArcId(a), key)),
    )
}

// Arcs and keys, and the plain values of the area and of the arc.
const PLAIN: &[(u32, Key, Option<Access>, Option<Access>)] = &[
    (1, Key::Hgv, None, None),
    (2, Key::Hgv, Some(Access::Barred), None),
    (2, Key::Access, None, Some(Access::Purpose)),
    (3, Key::Access, None, Some(Access::Free)),
    (3, Key::Bus, None, None),
];

// Whether the network has these plain values, and three rows are passed over.
fn has_plain(network: &Network, cases: &[(u32, Key, Option<Access>, Option<Access>)]) -> bool {
    let mut has = network.passed_over() == 3;
    for (a, key, area, own) in cases {
        has = has && plain_of(network, *a, *key) == (*area, *own);
    }
    has
}

// Whether a network with them is read.
fn reads_plain(alloc: Global) -> bool {
    match ruled(alloc, "", RULES) {
        Ok(network) => has_plain(&network, PLAIN),
        Err(_) => false,
    }
}

// Arcs and keys, and the numbers of clauses of the area and of the arc.
const CLAUSES: &[(u32, Key, usize, usize)] = &[
    (1, Key::Hgv, 0, 0),
    (2, Key::Hgv, 2, 0),
    (2, Key::Bus, 0, 0),
    (3, Key::Bus, 0, 1),
    (3, Key::Access, 0, 0),
];

// Whether the network has conditional values of these numbers of clauses.
fn has_clauses(network: &Network, cases: &[(u32, Key, usize, usize)]) -> bool {
    let mut has = true;
    for (a, key, area, own) in cases {
        has = has && clauses_of(network, *a, *key) == (*area, *own);
    }
    has
}

// Whether a network with them is read.
fn reads_conditional(alloc: Global) -> bool {
    match ruled(alloc, "", RULES) {
        Ok(network) => has_clauses(&network, CLAUSES),
        Err(_) => false,
    }
}

#[test]
fn reads_rules_of_areas_and_arcs(rt: HostRuntime) {
    assert!(rt; reads_plain(rt.alloc()));
    assert!(rt; reads_conditional(rt.alloc()));
}

// The network of the rules in these rows.
fn with_rules(alloc: Global, rows: &str) -> Result<Network, NetworkFault> {
    let text = table(alloc, RULE_HEADER, rows)?;
    ruled(alloc, "", &text)
}

// Rules that are refused: a scope's fault comes before a value's, and also where the key is passed over.
const BAD_RULES: &[(u64, Cause, &str)] = &[
    (2, Cause::FieldCount, "arc:1,hgv\n"),
    (2, Cause::BadField, "town,hgv,no\n"),
    (2, Cause::BadField, "area town,hgv,no\n"),
    (2, Cause::BadField, "arc1,hgv,no\n"),
    (2, Cause::BadField, "arc:,hgv,no\n"),
    (2, Cause::BadField, "arc: 1,hgv,no\n"),
    (2, Cause::BadField, "area:,hgv,no\n"),
    (2, Cause::Unknown, "arc:0,hgv,no\n"),
    (2, Cause::Unknown, "arc:4,hgv,no\n"),
    (2, Cause::Unknown, "area:west,hgv,maybe\n"),
    (2, Cause::Unknown, "area:west,hgv:conditional,maybe\n"),
    (2, Cause::Unknown, "area:west,maxweight,7.5\n"),
    (2, Cause::BadField, "arc:1,hgv,maybe\n"),
    (2, Cause::BadField, "arc:1,hgv,\n"),
    (2, Cause::BadField, "arc:1,hgv,no \n"),
    (2, Cause::BadField, "arc:1,hgv,no @ (24/7)\n"),
    (2, Cause::NotConditional, "arc:1,hgv:conditional,no\n"),
    (2, Cause::NotConditional, "arc:1,hgv:conditional,\n"),
    (
        2,
        Cause::NotConditional,
        "arc:1,hgv:conditional,no @ (two words)\n",
    ),
    (
        2,
        Cause::NotConditional,
        "arc:1,hgv:conditional,maybe @ a\n",
    ),
    (3, Cause::Duplicate, "arc:1,hgv,no\narc:1,hgv,no\n"),
    (3, Cause::Duplicate, "arc:1,hgv,no\narc:01,hgv,yes\n"),
    (3, Cause::BadField, "arc:1,hgv,no\narc:1,hgv,maybe\n"),
    (
        3,
        Cause::Duplicate,
        "area:town,bus:conditional,no @ a\narea:town,bus:conditional,no @ b\n",
    ),
];

#[test]
fn refuses_rules_with_their_first_fault(rt: HostRuntime) {
    for (row, cause, rows) in BAD_RULES {
        assert!(rt;
            is_refused(with_rules(rt.alloc(), rows), FileKind::Rules, *row, *cause),
            "{rows}"
        );
    }
    let header = ruled(rt.alloc(), "", "scope,value,key\n");
    assert!(rt; is_refused(header, FileKind::Rules, 1, Cause::BadHeader));
}

// Rules that are read: the number of rows that are passed over, and the data rows.
const GOOD_RULES: &[(u64, &str)] = &[
    (
        0,
        "arc:1,hgv,no\narc:2,hgv,no\narea:town,hgv,no\narea:port,hgv,no\n",
    ),
    (
        0,
        "arc:1,hgv,no\narc:1,hgv:conditional,no @ a\narc:1,bus,no\n",
    ),
    (0, "arc:0000000001,hgv_articulated,permit\n"),
    (2, "arc:1,maxweight,7.5\narc:1,maxweight,7.5\n"),
    (3, "arc:1,HGV,no\narc:1, hgv,no\narc:1,hgv:,no\n"),
    (
        2,
        "arc:1,hgv:forward,no\narc:1,maxspeed:conditional,80 @ wet\n",
    ),
    (2, "arc:1,,\narc:1,:conditional,no\n"),
];

// Whether the rules are read, and this number of rows is passed over.
fn passes_over(read: Result<Network, NetworkFault>, count: u64) -> bool {
    match read {
        Ok(network) => network.passed_over() == count,
        Err(_) => false,
    }
}

#[test]
fn counts_the_rows_that_are_passed_over(rt: HostRuntime) {
    for (count, rows) in GOOD_RULES {
        assert!(rt; passes_over(with_rules(rt.alloc(), rows), *count), "{rows}");
    }
}

// The row of a rule of this key whose value is `no @ a` and n blanks.
fn long_row(alloc: Global, key: &str, n: usize) -> Result<String, OutOfMemory> {
    let mut row = format!(in alloc; "arc:1,{key},no @ a")?;
    for _ in 0..n {
        row.push(' ')?;
    }
    row.push('\n')?;
    Ok(row)
}

// The network of this rule.
fn with_long_rule(alloc: Global, key: &str, n: usize) -> Result<Network, NetworkFault> {
    with_rules(alloc, &long_row(alloc, key, n)?)
}

// Whether the longest value is read as one clause.
fn reads_longest(alloc: Global) -> bool {
    match with_long_rule(alloc, "hgv:conditional", 65_530) {
        Ok(network) => clauses_of(&network, 1, Key::Hgv) == (0, 1),
        Err(_) => false,
    }
}

// Whether a longer value for this key is refused.
fn refuses_longer(alloc: Global, key: &str) -> bool {
    let read = with_long_rule(alloc, key, 65_531);
    is_refused(read, FileKind::Rules, 2, Cause::SizeLimit)
}

#[test]
fn reads_values_of_65536_bytes(rt: HostRuntime) {
    assert!(rt; reads_longest(rt.alloc()));
    assert!(rt; passes_over(with_long_rule(rt.alloc(), "maxweight", 65_531), 1));
    assert!(rt; refuses_longer(rt.alloc(), "hgv:conditional"));
    assert!(rt; refuses_longer(rt.alloc(), "hgv"));
}
