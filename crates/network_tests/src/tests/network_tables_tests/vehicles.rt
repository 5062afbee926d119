// The vehicles of a network.
use crate::tests::network_tables_tests::{VEHICLE_HEADER, is_refused, ruled, table};
use network_tables::{Network, NetworkFault};
use route_base::{Cause, FileKind};
use std::alloc::Global;
use vehicle_classes::{Purpose, Quantity, Vehicles};

// The vehicle of the happy path.
const TRUCK: &str = "\
name,class,weight_kg,axleload_kg,height_cm,width_cm,length_cm,axles,purpose,flags\n\
truck,hgv,40000,,400,,,5,delivery,hazmat  articulated\n";

// Whether the vehicles are the one for all and the truck.
fn has_the_truck(vehicles: &Vehicles) -> bool {
    if vehicles.len() != 2 {
        return false;
    }
    let truck = vehicles.vehicle(1);
    vehicles.find(b"any") == Some(0)
        && vehicles.find(b"truck") == Some(1)
        && truck.purpose() == Purpose::Delivery
        && truck.size(Quantity::Weight) == Some(40_000)
        && truck.size(Quantity::Axleload).is_none()
        && truck.has_flag(b"hazmat")
        && truck.has_flag(b"articulated")
        && !truck.has_flag(b"")
}

// Whether a network has these vehicles, and no row of its rules is passed over.
fn reads_the_truck(alloc: Global) -> bool {
    match ruled(alloc, TRUCK, "") {
        Ok(network) => has_the_truck(network.vehicles()) && network.passed_over() == 0,
        Err(_) => false,
    }
}

#[test]
fn reads_vehicles(rt: HostRuntime) {
    assert!(rt; reads_the_truck(rt.alloc()));
}

// The network of the vehicles in these rows.
fn with_vehicles(alloc: Global, rows: &str) -> Result<Network, NetworkFault> {
    let text = table(alloc, VEHICLE_HEADER, rows)?;
    ruled(alloc, &text, "")
}

// Vehicles that are refused: the record, the cause and the data rows.
const BAD_VEHICLES: &[(u64, Cause, &str)] = &[
    (2, Cause::FieldCount, "truck,hgv,,,,,,,\n"),
    (2, Cause::BadField, "truck,lorry,,,,,,,,\n"),
    (2, Cause::BadField, "truck,hgv,1000001,,,,,,,\n"),
    (2, Cause::BadField, "truck,hgv,,,,,,1000001,,\n"),
    (2, Cause::BadField, "truck,hgv,,,,,,,,hazmat \n"),
    (2, Cause::BadField, "truck,hgv,,,,,,,, hazmat\n"),
    (2, Cause::BadField, "truck,hgv,,,,,,,,Hazmat\n"),
    (2, Cause::BadField, "truck,hgv,,,,,,,,hazmat2\n"),
    (2, Cause::BadField, "truck,hgv,,,,,,,passage,\n"),
    (2, Cause::Duplicate, "any,hgv,,,,,,,,\n"),
    (3, Cause::Duplicate, "a,hgv,,,,,,,,\na,bus,,,,,,,,\n"),
    (3, Cause::BadField, "a,hgv,,,,,,,,\na,lorry,,,,,,,,\n"),
];

#[test]
fn refuses_vehicles_with_their_first_fault(rt: HostRuntime) {
    for (row, cause, rows) in BAD_VEHICLES {
        assert!(rt;
            is_refused(
                with_vehicles(rt.alloc(), rows),
                FileKind::Vehicles,
                *row,
                *cause
            ),
            "{rows}"
        );
    }
    let header = ruled(rt.alloc(), "name,class\n", "");
    assert!(rt; is_refused(header, FileKind::Vehicles, 1, Cause::BadHeader));
}
