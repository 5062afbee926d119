// The command that makes a network.
ghost use Rattle.std.specs.Prelude.{◌≡◌, map, IfOk};
ghost use Rattle.front_desk.specs.Words.{trip_in, IsChecked};
ghost use Rattle.front_desk.specs.Words.{gen_meaning, drawn_trip, stated_network, written_in, files_to_write, files_written, IsSummary};
ghost use Rattle.front_desk.specs.Words.{Ends};
ghost use Rattle.net_generator.specs.Sizes.{IsDrawable};

use crate::networks::net_at_once;
use crate::outcome::{Halt, Report};
use crate::requests::{Trip, request_of, vehicle_of_trip};
use drawn_network::draw_network;
use front_words::Gen;
use itinerary_unpack::FunctionEngine;
use net_generator::Generated;
use network_folder::{FileToWrite, put_each};
use network_tables::Network;
use plan_report::summary_text;
use route_base::{FileKind, Folder, FrontSearch, Gate, OutOfMemory};
use std::alloc::Global;
use std::thread::Threads;
use vehicle_classes::Vehicle;

// The trip that is planned over a drawn network: from its first node to its last, in 60 days.
fn drawn_trip(grid: &Gen) -> Trip<'static>
    requires { IsDrawable grid.now.number grid.now.rows grid.now.columns }
    ensures { trip_in result ≡ drawn_trip grid.now }
{
    Trip {
        vehicle: b"any",
        origin: 1,
        goal: grid.rows * grid.columns,
        depart: 26_563_680,
        until: 26_650_080,
    }
}

// The vehicle of the trip over a drawn network: the trip passes all checks.
fn vehicle_of_drawn<'a>(network: &'a Network, grid: &Gen) -> &'a Vehicle
    requires drawable { IsDrawable grid.now.number grid.now.rows grid.now.columns }
    requires network { network.now ≡ stated_network grid.now }
    ensures { IsChecked network.now (drawn_trip grid.now) result.now }
{
    drawn_network::drawn_files_are_good();
    let trip = drawn_trip(grid);
    let Ok(vehicle) = vehicle_of_trip(network, trip) else {
        unreachable!();
    };
    vehicle
}

// The summary of the drawn network, and of the Pareto front of the trip over it.
fn summary_of<R: Threads + Sync, G: Gate>(
    rt: &R,
    alloc: Global,
    network: &Network,
    grid: &Gen,
    gate: &G,
) -> Result<Vec<u8>, OutOfMemory>
    requires drawable { IsDrawable grid.now.number grid.now.rows grid.now.columns }
    requires network { network.now ≡ stated_network grid.now }
    ensures { IfOk result (λ text. IsSummary grid.now text.items) }
{
    let vehicle = vehicle_of_drawn(network, grid);
    let trip = drawn_trip(grid);
    let net = net_at_once(rt, alloc, network, vehicle, trip, gate)?;
    route_base::settings_agree();
    let routes = FunctionEngine.front(alloc, &net, request_of(trip))?;
    let graph = network.graph();
    let text = summary_text(alloc, graph.node_count(), graph.arc_count(), &routes)?;
    Ok(text)
}

// The drawn files, and the summary of the network that they state.
fn drawn<R: Threads + Sync, G: Gate>(
    rt: &R,
    alloc: Global,
    grid: &Gen,
    gate: &G,
) -> Result<(Generated, Vec<u8>), OutOfMemory>
    requires { IsDrawable grid.now.number grid.now.rows grid.now.columns }
    ensures files { IfOk result (λ made. files_to_write made.0.graph made.0.closures
        made.0.parking made.0.ratings ≡ files_written grid.now) }
    ensures summary { IfOk result (λ made. IsSummary grid.now made.1.items) }
{
    let drawn = draw_network(alloc, grid.number, grid.rows, grid.columns)?;
    let text = summary_of(rt, alloc, &drawn.network, grid, gate)?;
    Ok((drawn.files, text))
}

// The drawn files in the order in which they are written.
fn files_of(drawn: &Generated) -> [FileToWrite<'_>; 4]
    ensures { map written_in result
        ≡ files_to_write drawn.now.graph drawn.now.closures drawn.now.parking drawn.now.ratings }
{
    [
        FileToWrite {
            name: FileKind::Graph.label(),
            bytes: drawn.graph.as_slice(),
        },
        FileToWrite {
            name: FileKind::Closures.label(),
            bytes: drawn.closures.as_slice(),
        },
        FileToWrite {
            name: FileKind::Parking.label(),
            bytes: drawn.parking.as_slice(),
        },
        FileToWrite {
            name: FileKind::Ratings.label(),
            bytes: drawn.ratings.as_slice(),
        },
    ]
}

/// Draws a network from a number, writes its files into the folder, and gives its summary. It takes the time and memory of
/// `net_generator::generate`, of reading the files and of planning one trip.
pub fn report_gen<R: Threads + Sync, F: Folder, G: Gate>(
    rt: &R,
    alloc: Global,
    folder: &mut F,
    grid: &Gen,
    gate: &G,
) -> Result<Report, Halt>
    requires drawable { IsDrawable grid.now.number grid.now.rows grid.now.columns }
    ensures { Ends (gen_meaning grid.now)
        (F.state folder.old) (F.state folder.new) result }
{
    let (drawn, text) = drawn(rt, alloc, grid, gate)?;
    let files = files_of(&drawn);
    put_each(alloc, folder, &grid.dir, &files)?;
    Ok(Report {
        text,
        rejects: false,
    })
}
