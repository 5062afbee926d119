// Makes the net of a trip over a network.
ghost use Rattle.std.specs.Prelude.{◌≡◌, ◌≤◌, ◌+◌, None, IfOk, OnOk, IfErr};
ghost use Rattle.front_desk.specs.Words.{failed_check, trip_in, IsChecked, IsGoodTrip, IsTimed, StopsTrip};
ghost use Rattle.front_desk.specs.Words.{failed_check_within, StopsAtCheck};
ghost use Rattle.front_desk.specs.Words.{IsTripNet, trip_window};
ghost use Rattle.route_base.specs.declared.limits.TheConstants.{LONGEST_HORIZON};

use crate::laws;
use crate::outcome::Halt;
use crate::requests::{Trip, vehicle_within};
use ban_expansion::expand;
use network_tables::Network;
use plan_report::Refusal;
use route_base::limits::LONGEST_HORIZON;
use route_base::{Gate, Minute, OutOfMemory, Run, TimedNet};
use std::alloc::Global;
use std::thread::Threads;
use vehicle_classes::Vehicle;

// The minutes of a trip.
fn window_of(trip: Trip<'_>) -> Run
    ensures { result ≡ trip_window (trip_in trip.entry) }
{
    Run {
        lo: trip.depart,
        hi: trip.until,
    }
}

/// The net of a trip that passes the checks, for its vehicle: it stands for the network's roads in the trip's minutes. Several workers make
/// its closed minutes at once; a worker goes through the gate before it begins its part.
pub fn net_at_once<R: Threads + Sync, G: Gate>(
    rt: &R,
    alloc: Global,
    network: &Network,
    vehicle: &Vehicle,
    trip: Trip<'_>,
    gate: &G,
) -> Result<TimedNet, OutOfMemory>
    requires checked { IsChecked network.now (trip_in trip) vehicle.now }
    requires timed { IsTimed (trip_in trip) }
    ensures { IfOk result (IsTripNet network.now (trip_in trip.entry)) }
{
    let net = expand(rt, alloc, network, vehicle, window_of(trip), gate)?;
    laws::is_trip_net(network, trip, &net);
    Ok(net)
}

/// The net of a trip over a network, which is given back, or why there is none: the first check that the trip fails, whose time may have at
/// most `longest` minutes, or no memory.
pub fn net_within<R: Threads + Sync, G: Gate>(
    rt: &R,
    alloc: Global,
    network: Network,
    trip: Trip<'_>,
    longest: Minute,
    gate: &G,
) -> Result<TimedNet, Halt>
    requires timed { IsTimed (trip_in trip) }
    requires longest { longest ≤ LONGEST_HORIZON }
    ensures passed { OnOk result
        (failed_check_within longest network (trip_in trip.entry) ≡ None) }
    ensures good { OnOk result (IsGoodTrip network.graph.nodes (trip_in trip.entry)) }
    ensures short { OnOk result (trip.entry.until ≤ trip.entry.depart + longest) }
    ensures net { IfOk result (IsTripNet network (trip_in trip.entry)) }
    ensures refused { IfErr result
        (StopsAtCheck (failed_check_within longest network (trip_in trip.entry))) }
{
    match vehicle_within(&network, trip, longest) {
        Ok(vehicle) => Ok(net_at_once(rt, alloc, &network, vehicle, trip, gate)?),
        Err(fault) => Err(Halt::Refused(Refusal::Request(fault))),
    }
}

/// The same for a trip whose time may have 60 days.
pub fn net_for<R: Threads + Sync, G: Gate>(
    rt: &R,
    alloc: Global,
    network: Network,
    trip: Trip<'_>,
    gate: &G,
) -> Result<TimedNet, Halt>
    requires { IsTimed (trip_in trip) }
    ensures passed { OnOk result (failed_check network (trip_in trip.entry) ≡ None) }
    ensures good { OnOk result (IsGoodTrip network.graph.nodes (trip_in trip.entry)) }
    ensures net { IfOk result (IsTripNet network (trip_in trip.entry)) }
    ensures refused { IfErr result (StopsTrip network (trip_in trip.entry)) }
{
    net_within(rt, alloc, network, trip, LONGEST_HORIZON, gate)
}
