// vehicles.csv: its lawful forms, each cause for which it is refused, and trips by name.
use crate::tests::{Case, NETWORK, TWO_PAIRS, Texts, expect_cases, expect_trip};
use route_base::Status;
use std::process::Abort;
use std::thread::Threads;

const HEADER: &str =
    "name,class,weight_kg,axleload_kg,height_cm,width_cm,length_cm,axles,purpose,flags\n";

// Lawful rows.
const LAWFUL: &[&str] = &[
    "",
    "truck,hgv,40000,,400,255,1875,5,,\n",
    "a,hgv_articulated,,,,,,,through,\nb,goods,,,,,,,delivery,\nc,bus,,,,,,,,\n",
    "v,hgv,1000000,0,01,0000000001,,1,,hazmat  long_one\tx\n",
    "V,hgv,,,,,,,,_\nv,hgv,,,,,,,,a\n",
];

// Runs the trip with a table of these rows, and compares the status and the whole text.
fn expect_rows<R: Abort + Threads + Sync + AllocGlobal>(
    rt: &R,
    rows: &str,
    status: Status,
    report: &str,
) {
    let text = format!(in rt.alloc(); "{HEADER}{rows}").expect(rt, "memory");
    expect_trip(rt, NETWORK, ("vehicles.csv", text.as_str()), status, report);
}

#[test]
fn reads_vehicles_in_any_lawful_form(rt: HostRuntime) {
    for rows in LAWFUL {
        expect_rows(&rt, rows, Status::Done, TWO_PAIRS);
    }
}

// Rows, and each refusal.
const REFUSED: &[(&str, &str)] = &[
    (
        "truck,hgv,40000\n",
        "refused input vehicles.csv 2 FieldCount\n",
    ),
    (",hgv,,,,,,,,\n", "refused input vehicles.csv 2 BadField\n"),
    (
        "-v,hgv,,,,,,,,\n",
        "refused input vehicles.csv 2 BadField\n",
    ),
    (
        "v,lorry,,,,,,,,\n",
        "refused input vehicles.csv 2 BadField\n",
    ),
    ("v,HGV,,,,,,,,\n", "refused input vehicles.csv 2 BadField\n"),
    (
        "v,hgv,1000001,,,,,,,\n",
        "refused input vehicles.csv 2 BadField\n",
    ),
    (
        "v,hgv,,-1,,,,,,\n",
        "refused input vehicles.csv 2 BadField\n",
    ),
    (
        "v,hgv,,,4.0,,,,,\n",
        "refused input vehicles.csv 2 BadField\n",
    ),
    (
        "v,hgv,,,, 1,,,,\n",
        "refused input vehicles.csv 2 BadField\n",
    ),
    (
        "v,hgv,,,,,00000000001,,,\n",
        "refused input vehicles.csv 2 BadField\n",
    ),
    (
        "v,hgv,,,,,,x,,\n",
        "refused input vehicles.csv 2 BadField\n",
    ),
    (
        "v,hgv,,,,,,,transit,\n",
        "refused input vehicles.csv 2 BadField\n",
    ),
    (
        "v,hgv,,,,,,,,Hazmat\n",
        "refused input vehicles.csv 2 BadField\n",
    ),
    (
        "v,hgv,,,,,,,, hazmat\n",
        "refused input vehicles.csv 2 BadField\n",
    ),
    (
        "v,hgv,,,,,,,,hazmat \n",
        "refused input vehicles.csv 2 BadField\n",
    ),
    (
        "v,hgv,,,,,,,, \n",
        "refused input vehicles.csv 2 BadField\n",
    ),
    (
        "any,hgv,,,,,,,,\n",
        "refused input vehicles.csv 2 Duplicate\n",
    ),
    (
        "v,hgv,,,,,,,,\nw,bus,,,,,,,,\nv,goods,,,,,,,,\n",
        "refused input vehicles.csv 4 Duplicate\n",
    ),
];

#[test]
fn refuses_vehicles_with_their_first_fault(rt: HostRuntime) {
    for (rows, text) in REFUSED {
        expect_rows(&rt, rows, Status::BadInput, text);
    }
}

const TRUCK: Texts<'static> = &[(
    "d/vehicles.csv",
    "name,class,weight_kg,axleload_kg,height_cm,width_cm,length_cm,axles,purpose,flags\n\
    truck,hgv,40000,,400,255,1875,5,,\n",
)];

// Trips of a vehicle that there is, and of one that there isn't.
const BY_NAME: &[Case<'static>] = &[
    Case {
        more: TRUCK,
        words: "plan d truck 1 3 26563680 26564080",
        status: Status::Done,
        text: TWO_PAIRS,
    },
    Case {
        more: TRUCK,
        words: "plan d van 1 3 26563680 26564080",
        status: Status::BadRequest,
        text: "refused request UnknownVehicle\n",
    },
];

#[test]
fn plans_for_a_vehicle_by_its_name(rt: HostRuntime) {
    expect_cases(&rt, NETWORK, BY_NAME);
}
