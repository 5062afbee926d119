// Rows of the table as they are read, a fault for each cause, and the keys of each class.
use super::bad_row;
use route_base::{Cause, TableFault};
use std::alloc::Global;
use std::process::Abort;
use vehicle_classes::{Class, Key, Purpose, Quantity, Vehicle, Vehicles, chain_at, read_vehicles};

const HEADER: &str =
    "name,class,weight_kg,axleload_kg,height_cm,width_cm,length_cm,axles,purpose,flags\n";

// The vehicles that these rows state under the header.
fn vehicles_of(alloc: Global, rows: &str) -> Result<Vehicles, TableFault> {
    let text = format!(in alloc; "{HEADER}{rows}")?;
    read_vehicles(alloc, text.as_bytes())
}

// The sizes of the truck.
const SIZES: &[(Quantity, Option<u64>)] = &[
    (Quantity::Weight, Some(40_000)),
    (Quantity::Axleload, None),
    (Quantity::Height, Some(400)),
    (Quantity::Width, Some(255)),
    (Quantity::Length, Some(1_875)),
    (Quantity::Axles, Some(5)),
];

// Whether the vehicles are the one for all, which has no sizes, and the truck.
fn are_any_and_the_truck(vehicles: &Vehicles) -> bool {
    if vehicles.len() != 2 {
        return false;
    }
    let (any, truck) = (vehicles.vehicle(0), vehicles.vehicle(1));
    vehicles.find(b"any") == Some(0)
        && vehicles.find(b"truck") == Some(1)
        && vehicles.find(b"Truck").is_none()
        && truck.class() == Class::Hgv
        && truck.purpose() == Purpose::Through
        && !truck.has_flag(b"")
        && SIZES.iter().all(|row| truck.size(row.0) == row.1 && any.size(row.0).is_none())
}

#[test]
fn reads_a_vehicle(rt: HostRuntime) {
    let rows = "truck,hgv,40000,,400,255,1875,5,,\n";
    let vehicles = vehicles_of(rt.alloc(), rows).expect(&rt, "vehicles");
    assert!(rt; are_any_and_the_truck(&vehicles));
}

// Whether this is the bus of two axles that delivers.
fn is_the_bus(a: &Vehicle) -> bool {
    a.class() == Class::Bus
        && a.purpose() == Purpose::Delivery
        && a.size(Quantity::Axles) == Some(2)
        && a.has_flag(b"hazmat")
        && a.has_flag(b"low_emission")
        && !a.has_flag(b"low")
        && !a.has_flag(b"")
}

// Whether the vehicles behind the one for all are the bus and the heaviest van.
fn are_the_bus_and_the_van(vehicles: &Vehicles) -> bool {
    if vehicles.len() != 3 {
        return false;
    }
    let b = vehicles.vehicle(2);
    is_the_bus(vehicles.vehicle(1))
        && b.purpose() == Purpose::Through
        && b.size(Quantity::Weight) == Some(1_000_000)
        && !b.has_flag(b"hazmat")
}

#[test]
fn reads_flags_purposes_and_large_sizes(rt: HostRuntime) {
    let rows =
        "a,bus,,,,,,0000000002,delivery,hazmat  low_emission\nb,goods,1000000,,,,,,through,\n";
    let vehicles = vehicles_of(rt.alloc(), rows).expect(&rt, "vehicles");
    assert!(rt; are_the_bus_and_the_van(&vehicles));
}

// The record and the cause of a refusal, and rows that are refused so.
const REFUSED: &[(u64, Cause, &[&str])] = &[
    (2, Cause::FieldCount, &["a,hgv,,,,,,,\n"]),
    (
        2,
        Cause::BadField,
        &[
            "a,HGV,,,,,,,,\n",
            "a,,,,,,,,,\n",
            "-a,hgv,,,,,,,,\n",
            ",hgv,,,,,,,,\n",
            "a,hgv,1000001,,,,,,,\n",
            "a,hgv,,00000000001,,,,,,\n",
            "a,hgv,,,4.0,,,,,\n",
            "a,hgv,,,,,,,Through,\n",
            "a,hgv,,,,,,,, hazmat\n",
            "a,hgv,,,,,,,,hazmat\t\n",
            "a,hgv,,,,,,,, \n",
            "a,hgv,,,,,,,,Hazmat\n",
        ],
    ),
    (2, Cause::Duplicate, &["any,bus,,,,,,,,\n"]),
    (3, Cause::Duplicate, &["a,hgv,,,,,,,,\na,bus,,,,,,,,\n"]),
    (3, Cause::BadField, &["a,hgv,,,,,,,,\na,lorry,,,,,,,,\n"]),
];

// Reads the rows of each text, and compares the fault.
fn expect_refused<R: Abort + AllocGlobal>(rt: &R, texts: &[&str], due: TableFault) {
    for rows in texts {
        let fault = vehicles_of(rt.alloc(), rows).err();
        assert!(rt; fault == Some(due), "{rows}");
    }
}

#[test]
fn refuses_rows(rt: HostRuntime) {
    for (row, cause, texts) in REFUSED {
        expect_refused(&rt, texts, bad_row(*row, *cause));
    }
}

// The number of vehicles that a whole text states.
fn count_in(alloc: Global, text: &str) -> Result<usize, TableFault> {
    match read_vehicles(alloc, text.as_bytes()) {
        Ok(vehicles) => Ok(vehicles.len()),
        Err(fault) => Err(fault),
    }
}

#[test]
fn reads_whole_texts(rt: HostRuntime) {
    let bad_header = TableFault::BadRow {
        row: 1,
        cause: Cause::BadHeader,
    };
    assert!(rt; count_in(rt.alloc(), "name,class\n") == Err(bad_header));
    assert!(rt; count_in(rt.alloc(), "") == Ok(1));
}

// Whether the keys of a class are the general ones, its own, and this last one.
fn has_keys(class: Class, own: Key, last: Option<Key>) -> bool {
    chain_at(class, 0) == Some(Key::Access)
        && chain_at(class, 1) == Some(Key::Vehicle)
        && chain_at(class, 2) == Some(Key::MotorVehicle)
        && chain_at(class, 3) == Some(own)
        && chain_at(class, 4) == last
        && chain_at(class, 5).is_none()
}

// Classes, their own keys, and the last keys behind these.
const CLASSES: &[(Class, Key, Option<Key>)] = &[
    (Class::Hgv, Key::Hgv, None),
    (Class::HgvArticulated, Key::Hgv, Some(Key::HgvArticulated)),
    (Class::Goods, Key::Goods, None),
    (Class::Bus, Key::Bus, None),
];

#[test]
fn goes_from_general_keys_to_special_ones(rt: HostRuntime) {
    for (class, own, last) in CLASSES {
        assert!(rt; has_keys(*class, *own, *last), "{own:?} and {last:?}");
    }
}
