// From the bytes of files to a printed Pareto front.
ghost use Rattle.std.specs.Prelude.{◌≡◌, ◌≤◌, ◌+◌, List, IfOk};
ghost use Rattle.network_tables.specs.Files.{no_files, with_file};
ghost use Rattle.network_tables.specs.NetworkFiles.{contents_fault, network_in_files};
ghost use Rattle.network_tables.specs.Refusals.{Reads};
ghost use Rattle.network_tables.specs.RoadSetting.{road_setting};
ghost use Rattle.plan_report.specs.Plain.{plain_text_of};
ghost use Rattle.route_base.specs.Front.{IsRight};
ghost use Rattle.route_base.specs.declared.faults.FileKind.TheVariants.{Closures, Graph};
ghost use Rattle.route_base.specs.declared.limits.TheConstants.{LONGEST_HORIZON};
ghost use Rattle.route_base.specs.declared.types.Route.{Route};
ghost use Rattle.trip_explain.specs.Explanations.{IsRoadRequest};

use crate::plans::plan_trip;
use network_tables::{Files, Network, NetworkFault, read_network};
use plan_report::plain_text;
use route_base::{FileBytes, FileKind, OutOfMemory, Request};
use std::alloc::Global;
use vehicle_classes::Vehicle;

/// The network of a graph and a table of closures, without other tables, or the first fault of the two. Linear in the bytes.
pub fn network_of(
    alloc: Global,
    graph: FileBytes,
    closures: FileBytes,
) -> Result<Network, NetworkFault>
    ensures { let files = with_file (with_file no_files Graph graph) Closures closures in
        Reads result (contents_fault files) (λ network. network ≡ network_in_files files) }
{
    let mut files = Files::new(alloc);
    files.put(FileKind::Graph, graph);
    files.put(FileKind::Closures, closures);
    read_network(alloc, &files)
}

/// The Pareto front of a trip as plain lines: the number of pairs, then each with its legs. It takes the time and memory of `plan_trip`,
/// and is linear in the number of legs.
pub fn front_text(
    alloc: Global,
    network: &Network,
    vehicle: &Vehicle,
    request: Request,
) -> Result<Vec<u8>, OutOfMemory>
    requires trip { IsRoadRequest network.now request }
    requires horizon { request.until ≤ request.depart + LONGEST_HORIZON }
    ensures { IfOk result (λ text. (routes : List Route)
        × IsRight (road_setting network.now vehicle.now) request routes
        × (text.items ≡ plain_text_of routes)) }
{
    let routes = plan_trip(alloc, network, vehicle, request)?;
    let text = plain_text(alloc, &routes)?;
    Ok(text)
}
