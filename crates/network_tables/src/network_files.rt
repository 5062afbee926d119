// A whole network, file by file.
ghost use Rattle.std.specs.Prelude.{◌≡◌, ◌<◌, All, IfOk, length};
ghost use Rattle.dimacs_reader.specs.GraphModel.{graph_of};
ghost use Rattle.network_tables.specs.NetworkFiles.{closed_runs_of, contents_fault, graph_fault, network_in_files, node_count_of, parks_of};
ghost use Rattle.network_tables.specs.Inside.{places_fault, access_fault, limits_fault, HavePlaces, IsCalendar};
ghost use Rattle.network_tables.specs.Words.{arc_count_of, areas_of, holidays_fault, names_of, rules_of, vehicles_of};
ghost use Rattle.network_tables.specs.Parks.{parks_with, IsTimedIn};
ghost use Rattle.network_tables.specs.Refusals.{Reads};

use crate::area_files::{read_area_file, read_holiday_file, read_road_file, read_zone_file};
use crate::closure_lists::ClosureLists;
use crate::closures::read_closures;
use crate::network::NetworkParts;
use crate::parking::read_parking;
use crate::parks::Parks;
use crate::ratings::read_ratings;
use crate::rules::{Rules, read_rules};
use crate::tolls::read_tolls;
use crate::vehicle_file::read_vehicle_file;
use crate::{Files, Network, NetworkFault};
use area_tables::{Areas, Zones};
use dimacs_reader::{Graph, GraphFault, read_graph};
use opening_hours::Holidays;
use route_base::{BadInput, FileKind};
use std::alloc::Global;
use vehicle_classes::Vehicles;
use zone_rules::Zone;

// The graph. Linear in the bytes.
fn read_graph_file(alloc: Global, files: &Files) -> Result<Graph, NetworkFault>
    ensures { Reads result (graph_fault files.now) (λ graph. graph ≡ graph_of files.now.graph) }
{
    match read_graph(alloc, files.graph.as_slice()) {
        Ok(graph) => Ok(graph),
        Err(GraphFault::BadLine { line, cause }) => Err(NetworkFault::Bad(BadInput {
            file: FileKind::Graph,
            row: line,
            cause,
        })),
        Err(GraphFault::OutOfMemory) => Err(NetworkFault::OutOfMemory),
    }
}

// The zones by name, the areas with the places of their zones, and the area of each arc. Linear in the bytes and the arcs.
fn read_places(
    alloc: Global,
    files: &Files,
    arcs: u32,
) -> Result<(Zones, Areas, Vec<u32>), NetworkFault>
    requires { arcs ≡ arc_count_of files.now }
    ensures { Reads result (places_fault files.now)
        (λ read. HavePlaces files.now read.0 read.1 read.2.items) }
{
    let zones = read_zone_file(alloc, files)?;
    let areas = read_area_file(alloc, files, &zones)?;
    let roads = read_road_file(alloc, files, arcs, &areas)?;
    Ok((zones, areas, roads))
}

// The vehicles, and the rules for these areas. Linear in the bytes.
fn read_access(
    alloc: Global,
    files: &Files,
    arcs: u32,
    areas: &Areas,
) -> Result<(Vehicles, Rules), NetworkFault>
    requires arcs { arcs ≡ arc_count_of files.now }
    requires areas { names_of areas.now ≡ names_of (areas_of files.now) }
    ensures { Reads result (access_fault files.now)
        (λ read. (read.0 ≡ vehicles_of files.now) × (read.1 ≡ rules_of files.now)) }
{
    let vehicles = read_vehicle_file(alloc, files)?;
    let rules = read_rules(alloc, files, arcs, areas)?;
    Ok((vehicles, rules))
}

// The closed minutes of the arcs, and the nodes where one may wait, by these areas. Linear in the bytes and the arcs.
fn read_limits(
    alloc: Global,
    files: &Files,
    arcs: u32,
    nodes: u32,
    areas: &Areas,
) -> Result<(ClosureLists, Parks), NetworkFault>
    requires arcs { arcs ≡ arc_count_of files.now }
    requires nodes { nodes ≡ node_count_of files.now }
    requires areas { names_of areas.now ≡ names_of (areas_of files.now) }
    requires some { 0 < length areas.now }
    ensures value { Reads result (limits_fault files.now)
        (λ read. (read.0 ≡ closed_runs_of files.now)
        × (parks_with read.1 ≡ parks_of files.now)) }
    ensures placed { IfOk result (λ read.
        All (IsTimedIn (length areas.now)) read.1.timetables) }
{
    let closures = read_closures(alloc, files, arcs)?;
    let ratings = read_ratings(alloc, files)?;
    let parks = read_parking(alloc, files, nodes, ratings, areas)?;
    Ok((closures, parks))
}

// The zones by number, and for each area the place of its zone and its holidays. Linear in the bytes and the areas, beside n log n
// steps for n days of holidays.
fn read_calendar(
    alloc: Global,
    files: &Files,
    zones: Zones,
    areas: Areas,
) -> Result<(Vec<Zone>, Vec<usize>, Vec<Holidays>), NetworkFault>
    requires { names_of areas ≡ names_of (areas_of files.now) }
    ensures { Reads result (holidays_fault files.now)
        (λ read. IsCalendar files.now zones areas read.0.items read.1.items read.2.items) }
{
    let holidays = read_holiday_file(alloc, files, &areas)?;
    let zones = zones.into_list(alloc)?;
    let zone_places = areas.into_zone_places(alloc)?;
    Ok((zones, zone_places, holidays))
}

/// Reads the network that the files state: the graph, then zones, areas, roads, vehicles, rules, closures, ratings, parking,
/// holidays and tolls. Linear in the bytes, the nodes and the arcs, beside n log n steps for n days of holidays.
///
/// `Bad` is the first fault of their contents, whose cause is never `Missing` or `TooLong`; `OutOfMemory` comes where a list can't
/// grow.
#[tactic(auto, unfolding(crate::specs::NetworkFiles::network_in_files))]
pub fn read_network(alloc: Global, files: &Files) -> Result<Network, NetworkFault>
    ensures { Reads result (contents_fault files.now)
        (λ network. network ≡ network_in_files files.now) }
{
    let graph = read_graph_file(alloc, files)?;
    let arcs = graph.arc_count();
    let (zones, areas, roads) = read_places(alloc, files, arcs)?;
    let (vehicles, rules) = read_access(alloc, files, arcs, &areas)?;
    let (closures, parks) = read_limits(alloc, files, arcs, graph.node_count(), &areas)?;
    let (zones, zone_places, holidays) = read_calendar(alloc, files, zones, areas)?;
    let tolls = read_tolls(alloc, files, arcs)?;
    Ok(Network::new(NetworkParts {
        graph,
        zones,
        zone_places,
        holidays,
        roads,
        vehicles,
        rules,
        closures,
        parks,
        tolls,
    }))
}
