// The net of a trip, over which it is searched.
ghost use Rattle.std.specs.Prelude.{◌≤◌, ◌+◌, IfOk};
ghost use Rattle.route_base.specs.declared.limits.TheConstants.{LONGEST_HORIZON};
ghost use Rattle.trip_explain.specs.Explanations.{IsRoadRequest};
ghost use Rattle.uses.specs.Nets.{IsNetOf};

use ban_expansion::expand_plain;
use network_tables::Network;
use route_base::{OutOfMemory, Request, Run, TimedNet};
use std::alloc::Global;
use vehicle_classes::Vehicle;

/// The net of a vehicle's trip over a network: its roads are shut when they are closed to the vehicle, within the trip's minutes. It
/// takes the time and memory of `expand_plain`.
pub fn trip_net(
    alloc: Global,
    network: &Network,
    vehicle: &Vehicle,
    request: Request,
) -> Result<TimedNet, OutOfMemory>
    requires trip { IsRoadRequest network.now request }
    requires horizon { request.until ≤ request.depart + LONGEST_HORIZON }
    ensures { IfOk result (IsNetOf network.now vehicle.now request) }
{
    // A graph that was read has no more nodes and arcs than a file may have: the call tells the prover so.
    let graph = network.graph();
    let _nodes = graph.node_count();
    let window = Run {
        lo: request.depart,
        hi: request.until,
    };
    let net = expand_plain(alloc, network, vehicle, window)?;
    Ok(net)
}
