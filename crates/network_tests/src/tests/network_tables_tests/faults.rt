// The order in which the files of a network are refused.
use crate::tests::network_tables_tests::{AREAS, VEHICLE_HEADER, is_refused, read};
use route_base::{Cause, FileKind};

// A fault in each file, in the order in which they are read.
const FAULTY: [(FileKind, &str); 10] = [
    (FileKind::Zones, "x"),
    (FileKind::Areas, "area,zone\nport,West\n"),
    (FileKind::Roads, "arc,area\n1,port\n01,port\n"),
    (FileKind::Vehicles, "x"),
    (FileKind::Rules, "scope,key,value\narc:4,hgv,no\n"),
    (FileKind::Closures, "arc,from,to\n4,525600,525601\n"),
    (FileKind::Ratings, "rating,weight\nr,1\nr,2\nr,x\n"),
    (FileKind::Parking, "node,rating\n1,r\n01,r\n"),
    (
        FileKind::Holidays,
        "area,kind,date\nport,PH,2020-02-29\nport,PH,2020-02-30\n",
    ),
    (FileKind::Tolls, "arc,toll\n1,60\n01,60\n"),
];

// The record and the cause of each of these faults, and the text of the file without it.
const REFUSED: [(FileKind, u64, Cause, &str); 10] = [
    (FileKind::Zones, 1, Cause::BadHeader, ""),
    (FileKind::Areas, 2, Cause::Unknown, AREAS),
    (FileKind::Roads, 3, Cause::Duplicate, ""),
    (FileKind::Vehicles, 1, Cause::BadHeader, VEHICLE_HEADER),
    (FileKind::Rules, 2, Cause::Unknown, ""),
    (FileKind::Closures, 2, Cause::Unknown, ""),
    (
        FileKind::Ratings,
        3,
        Cause::Duplicate,
        "rating,weight\nr,1\n",
    ),
    (FileKind::Parking, 3, Cause::Duplicate, ""),
    (FileKind::Holidays, 3, Cause::BadField, ""),
    (FileKind::Tolls, 3, Cause::Duplicate, ""),
];

// The texts of the files, of which the first n have no fault.
fn mended(n: usize) -> [(FileKind, &'static str); 10] {
    let mut texts = FAULTY;
    for (text, (file, _, _, mended)) in texts.iter_mut().zip(&REFUSED).take(n) {
        *text = (*file, *mended);
    }
    texts
}

#[test]
fn names_the_first_fault_in_the_order_of_files(rt: HostRuntime) {
    for (i, (file, row, cause, _)) in REFUSED.iter().enumerate() {
        assert!(rt;
            is_refused(read(rt.alloc(), &mended(i)), *file, *row, *cause),
            "at record {row}, file {i}"
        );
    }
}
