// Tables of stops: rows as they are read, and a fault for each cause.
use crate::tests::expect_right;
use route_base::{Cause, NodeId, OutOfMemory, TableFault};
use std::alloc::Global;
use stop_tour::{MOST_STOPS, Stop, read_stops};

// Texts, and the stops that they state.
const READ: &[(&str, &[Stop])] = &[
    ("", &[]),
    ("node,service,from,to\n", &[]),
    (
        "node,service,from,to\n2,30,2020-07-04T01:00Z,26563880\n02,1440,26563740,26565180\n",
        &[
            Stop {
                node: NodeId(2),
                service: 30,
                from: 26_563_740,
                to: 26_563_880,
            },
            Stop {
                node: NodeId(2),
                service: 1_440,
                from: 26_563_740,
                to: 26_565_180,
            },
        ],
    ),
];

// Texts that are refused: the record and the cause. A bad field comes before an unknown node, and that before a window's end.
const REFUSED: &[(&str, u64, Cause)] = &[
    ("node,from,to\n", 1, Cause::BadHeader),
    (
        "node,service,from,to\n2,30,26563740,26563880\n2,30,26563740\n",
        3,
        Cause::FieldCount,
    ),
    (
        "node,service,from,to\n2,0,26563740,26563880\n",
        2,
        Cause::BadField,
    ),
    (
        "node,service,from,to\n2,1441,26563740,26563880\n",
        2,
        Cause::BadField,
    ),
    (
        "node,service,from,to\n4,30,26563740,2656388x\n",
        2,
        Cause::BadField,
    ),
    (
        "node,service,from,to\n4,30,26563740,26563740\n",
        2,
        Cause::Unknown,
    ),
    (
        "node,service,from,to\n0,30,26563740,26563880\n",
        2,
        Cause::Unknown,
    ),
    (
        "node,service,from,to\n3,30,26563740,26563740\n",
        2,
        Cause::NotRising,
    ),
];

// Whether the text of a table over three nodes states these stops.
fn has_stops(alloc: Global, text: &str, stops: &[Stop]) -> bool {
    match read_stops(alloc, text.as_bytes(), 3) {
        Ok(read) => read.as_slice() == stops,
        Err(_) => false,
    }
}

#[test]
fn read_stops_in_the_order_of_rows(rt: HostRuntime) {
    for (text, stops) in READ {
        expect_right(&rt, has_stops(rt.alloc(), text, stops), text);
    }
}

// Whether the text is refused for this record and cause.
fn is_refused(alloc: Global, text: &[u8], row: u64, cause: Cause) -> bool {
    match read_stops(alloc, text, 3) {
        Ok(_) => false,
        Err(fault) => fault == TableFault::BadRow { row, cause },
    }
}

#[test]
fn refuse_stops_with_their_first_fault(rt: HostRuntime) {
    for (text, row, cause) in REFUSED {
        expect_right(
            &rt,
            is_refused(rt.alloc(), text.as_bytes(), *row, *cause),
            text,
        );
    }
}

// A table of this many rows.
fn table_of(alloc: Global, rows: u32) -> Result<Vec<u8>, OutOfMemory> {
    let mut text = Vec::from_slice(alloc, b"node,service,from,to\n")?;
    for _row in 0..rows {
        text.extend_from_slice(b"1,1,26563740,26563741\n")?;
    }
    Ok(text)
}

// Whether this many rows are read, and one more is refused.
fn is_largest(alloc: Global, rows: u32) -> bool {
    let Ok(text) = table_of(alloc, rows) else {
        return false;
    };
    let Ok(larger) = table_of(alloc, rows.saturating_add(1)) else {
        return false;
    };
    is_refused(alloc, larger.as_slice(), rows as u64 + 2, Cause::SizeLimit)
        && read_stops(alloc, text.as_slice(), 3).is_ok()
}

#[test]
fn read_as_many_stops_as_the_limit_says(rt: HostRuntime) {
    assert!(rt; is_largest(rt.alloc(), MOST_STOPS));
}
