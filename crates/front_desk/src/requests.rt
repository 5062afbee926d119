// Checks requests against the network.
ghost use Rattle.std.specs.Prelude.{◌≡◌, ◌+◌, ◌≤◌, Some, None, IfSome, IfOk, OnOk, IfErr, is_some, length};
ghost use Rattle.std.specs.Result.{result_err};
ghost use Rattle.route_base.specs.declared.limits.TheConstants.{LONGEST_HORIZON};
ghost use Rattle.front_desk.specs.Words.{failed_time_within, failed_bans_check};
ghost use Rattle.front_desk.specs.Words.{failed_check_over_within, failed_check_within};
ghost use Rattle.front_desk.specs.Words.{is_node, failed_check, request_of, trip_in, IsGoodTrip};
ghost use Rattle.front_desk.specs.Words.{is_vehicle, vehicle_named, IsChecked};

use front_words::{Bans, Trip as TripWords};
use network_tables::Network;
use route_base::limits::LONGEST_HORIZON;
use route_base::{Minute, NodeId, Request, RequestFault};
use vehicle_classes::Vehicle;

/// A trip of a vehicle from node `origin` at `depart` to node `goal`, by `until` at the latest. Nothing is checked yet: the
/// nodes may be no nodes of the network, and `until` may come before `depart`.
#[derive(Clone, Copy)]
pub struct Trip<'a> {
    pub vehicle: &'a [u8],
    pub origin: u32,
    pub goal: u32,
    pub depart: Minute,
    pub until: Minute,
}

/// The trip that words say, its vehicle's name borrowed.
pub fn trip_of(words: &TripWords) -> Trip<'_>
    ensures { trip_in result ≡ words.now }
{
    Trip {
        vehicle: words.vehicle.as_str().as_bytes(),
        origin: words.origin,
        goal: words.goal,
        depart: words.depart,
        until: words.until,
    }
}

// Whether a node is one of `count` nodes.
fn is_known(count: u32, node: u32) -> bool
    ensures { result ≡ is_node count node }
{
    1 <= node && node <= count
}

// The first check that the time from `depart` to `until` fails, which may have at most `longest` minutes.
fn failed_time(depart: Minute, until: Minute, longest: Minute) -> Option<RequestFault>
    ensures first { result ≡ failed_time_within longest depart until }
    ensures in_order { result ≡ None → depart ≤ until }
    ensures short { result ≡ None → until ≤ depart + longest }
{
    if until < depart {
        Some(RequestFault::UntilBeforeDepart)
    } else if until - depart > longest {
        Some(RequestFault::HorizonTooLong)
    } else {
        None
    }
}

// The first check that the trip fails over a graph of `count` nodes. Its time may have at most `longest` minutes.
fn failed_over(count: u32, trip: Trip<'_>, longest: Minute) -> Option<RequestFault>
    requires { longest ≤ LONGEST_HORIZON }
    ensures first { result ≡ failed_check_over_within longest count (trip_in trip.entry) }
    ensures passed { result ≡ None → IsGoodTrip count (trip_in trip.entry) }
    ensures short { result ≡ None → trip.entry.until ≤ trip.entry.depart + longest }
{
    if !is_known(count, trip.origin) {
        Some(RequestFault::OriginRange)
    } else if !is_known(count, trip.goal) {
        Some(RequestFault::GoalRange)
    } else {
        failed_time(trip.depart, trip.until, longest)
    }
}

// The vehicle of a name.
fn vehicle_of<'a>(network: &'a Network, name: &[u8]) -> Option<&'a Vehicle>
    ensures found { IfSome result (λ vehicle. vehicle.now ≡ vehicle_named network.now name.now) }
    ensures known { is_some result ≡ is_vehicle network.now name.now }
{
    let place = network.vehicles().find(name)?;
    Some(network.vehicles().vehicle(place))
}

/// The vehicle of a trip that passes the checks over the network, or the first check that it fails, in the order of
/// `RequestFault`. The trip's time may have at most `longest` minutes. In constant time on average.
pub fn vehicle_within<'a>(
    network: &'a Network,
    trip: Trip<'_>,
    longest: Minute,
) -> Result<&'a Vehicle, RequestFault>
    requires { longest ≤ LONGEST_HORIZON }
    ensures passed { OnOk result
        (failed_check_within longest network.now (trip_in trip.entry) ≡ None) }
    ensures checked { IfOk result (λ vehicle.
        IsChecked network.now (trip_in trip.entry) vehicle.now) }
    ensures short { OnOk result (trip.entry.until ≤ trip.entry.depart + longest) }
    ensures failed { IfErr result (λ fault.
        failed_check_within longest network.now (trip_in trip.entry) ≡ Some fault) }
{
    let Some(vehicle) = vehicle_of(network, trip.vehicle) else {
        return Err(RequestFault::UnknownVehicle);
    };
    match failed_over(network.graph().node_count(), trip, longest) {
        None => Ok(vehicle),
        Some(fault) => Err(fault),
    }
}

/// The same for a trip whose time may have 60 days.
pub fn vehicle_of_trip<'a>(
    network: &'a Network,
    trip: Trip<'_>,
) -> Result<&'a Vehicle, RequestFault>
    ensures passed { OnOk result (failed_check network.now (trip_in trip.entry) ≡ None) }
    ensures checked { IfOk result (λ vehicle.
        IsChecked network.now (trip_in trip.entry) vehicle.now) }
    ensures failed { IfErr result (λ fault.
        failed_check network.now (trip_in trip.entry) ≡ Some fault) }
{
    vehicle_within(network, trip, LONGEST_HORIZON)
}

/// The vehicle of the command's name, or the first check that the command fails over the network. In constant time on average.
pub fn vehicle_of_bans<'a>(network: &'a Network, bans: &Bans) -> Result<&'a Vehicle, RequestFault>
    ensures first { result_err result ≡ failed_bans_check network.now bans.now }
    ensures vehicle { IfOk result (λ v. v.now ≡ vehicle_named network.now bans.now.vehicle) }
    ensures low { OnOk result (1 ≤ bans.now.arc) }
    ensures high { OnOk result (bans.now.arc ≤ length network.now.graph.arcs) }
{
    let Some(vehicle) = vehicle_of(network, bans.vehicle.as_str().as_bytes()) else {
        return Err(RequestFault::UnknownVehicle);
    };
    if !is_known(network.graph().arc_count(), bans.arc) {
        return Err(RequestFault::UnknownArc);
    }
    match failed_time(bans.depart, bans.until, LONGEST_HORIZON) {
        Some(fault) => Err(fault),
        None => Ok(vehicle),
    }
}

/// The trip as a request.
pub fn request_of(trip: Trip<'_>) -> Request
    ensures { result ≡ request_of (trip_in trip.entry) }
{
    Request {
        origin: NodeId(trip.origin),
        goal: NodeId(trip.goal),
        depart: trip.depart,
        until: trip.until,
    }
}
