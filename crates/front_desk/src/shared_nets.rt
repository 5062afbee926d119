// Nets that trips of one vehicle share.
ghost use Rattle.std.specs.Prelude.{◌≡◌, ◌≤◌, IsTrue, IfOk};
ghost use Rattle.ban_expansion.specs.ArcGroups.{AreGroups};
ghost use Rattle.ban_expansion.specs.Words.{IsWindow};
ghost use Rattle.front_desk.specs.Batch.{IsTripReport};
ghost use Rattle.front_desk.specs.Inside.Sharing.{IsSharedNet, IsSharedBy};
ghost use Rattle.front_desk.specs.Words.{IsChecked, IsGoodNetwork, IsGoodTrip, IsTimed, trip_in, trip_setting};

use crate::laws;
use crate::requests::{Trip, request_of};
use ban_expansion::{ArcGroups, expand_groups};
use itinerary_unpack::{SearchArcs, front_over, search_arcs};
use network_tables::Network;
use plan_report::plan_text;
use route_base::{Form, OutOfMemory, Run, TimedNet};
use std::alloc::Global;
use vehicle_classes::Vehicle;

/// The net of the vehicle of a name over a window of minutes, with what the searches over it share.
pub struct SharedNet {
    vehicle: Vec<u8>,
    window: Run,
    net: TimedNet,
    arcs: SearchArcs,
}

// By hand, so that the drops of its parts are proved here alone.
impl Drop for SharedNet {
    fn drop(self) {
        let SharedNet {
            vehicle: _,
            window: _,
            net: _,
            arcs: _,
        } = self;
    }
}

/// Whether the net is that of the trip's vehicle, over a window that has the trip's minutes.
pub fn is_shared_by(shared: &SharedNet, trip: Trip<'_>) -> bool
    ensures { IsTrue result → IsSharedBy shared.now (trip_in trip.entry) }
{
    shared.vehicle.as_slice() == trip.vehicle
        && shared.window.lo <= trip.depart
        && trip.until <= shared.window.hi
}

/// The net of a trip that passes the checks, for its vehicle, over a window that has the trip's minutes. It takes the time and memory of
/// `expand_groups` and of `search_arcs`.
pub fn shared_net(
    alloc: Global,
    network: &Network,
    groups: &ArcGroups,
    vehicle: &Vehicle,
    trip: Trip<'_>,
    window: Run,
) -> Result<SharedNet, OutOfMemory>
    requires groups { AreGroups network.now groups.now }
    requires checked { IsChecked network.now (trip_in trip) vehicle.now }
    requires window { IsWindow window }
    requires from { window.lo ≤ trip.depart }
    requires to { trip.until ≤ window.hi }
    ensures right { IfOk result (IsSharedNet network.now) }
    ensures shared { IfOk result (λ shared. IsSharedBy shared (trip_in trip.entry)) }
{
    let net = expand_groups(alloc, network, groups, vehicle, window)?;
    let arcs = search_arcs(alloc, &net)?;
    Ok(SharedNet {
        vehicle: trip.vehicle.to_vec(alloc)?,
        window,
        net,
        arcs,
    })
}

/// The text of the plan of a trip over a net that it shares, in plain lines. It takes the time and memory of `front_over`: bounds end
/// at the trip's minutes, so that a trip to a goal that is farther away ends before it has cost anything.
pub fn text_over(
    alloc: Global,
    network: &Network,
    shared: &SharedNet,
    trip: Trip<'_>,
) -> Result<Vec<u8>, OutOfMemory>
    requires network { IsGoodNetwork network.now }
    requires good { IsGoodTrip network.now.graph.nodes (trip_in trip) }
    requires timed { IsTimed (trip_in trip) }
    requires right { IsSharedNet network.now shared.now }
    requires shared { IsSharedBy shared.now (trip_in trip) }
    ensures { IfOk result (λ text. IsTripReport (trip_setting network.now (trip_in trip.entry))
        (trip_in trip.entry) text.items) }
{
    let net = &shared.net;
    laws::is_trip_net(network, trip, net);
    route_base::settings_agree();
    plan_report::reports_agree();
    let request = request_of(trip);
    let routes = front_over(alloc, net, &shared.arcs, request)?;
    let text = plan_text(alloc, Form::Plain, net, request, &routes)?;
    Ok(text)
}
