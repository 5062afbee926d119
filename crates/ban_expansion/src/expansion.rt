// Makes the net of a network for a vehicle, over which trips are planned.
ghost use Rattle.std.specs.Prelude.{◌≡◌, ◌≤◌, ◌<◌, length, map, IfOk};
ghost use Rattle.route_base.specs.declared.limits.TheConstants.{HIGHEST_TOLL, LONGEST_DRIVE};
ghost use Rattle.ban_expansion.specs.Words.{IsNetFor, setting_of, IsGoodGraph, IsWindow, VehicleModel};
ghost use Rattle.ban_expansion.specs.Words.{AreClosedLists, AreClosedOnce, AreGroups, AreTimed, IsTimedArc};
ghost use Rattle.ban_expansion.specs.Words.{timed_over};

use crate::arc_groups::ArcGroups;
use crate::closed_lists::{closed_lists, closed_lists_at_once};
use crate::grouping::group_arcs;
use crate::shut_lists::{parks_at, shut_lists};
use dimacs_reader::GraphArc;
use network_tables::Network;
use route_base::limits::COST_OF_MINUTE;
use route_base::{ArcId, Cost, Gate, OutOfMemory, Run, TimedArc, TimedNet};
use std::alloc::Global;
use std::thread::Threads;
use vehicle_classes::Vehicle;

// The arc of the net with this toll, with its closed runs at this place.
#[inline(always)]
fn timed(arc: GraphArc, toll: Cost, place: u32) -> TimedArc
    requires minutes { arc.minutes ≤ LONGEST_DRIVE }
    requires toll { toll ≤ HIGHEST_TOLL }
    ensures { result ≡ timed_over place toll arc }
{
    TimedArc {
        tail: arc.tail,
        head: arc.head,
        minutes: arc.minutes,
        cost: COST_OF_MINUTE * arc.minutes + toll,
        closed: place,
    }
}

// The arc of the net at place k from 0, with its closed runs at the place of its group.
#[inline(always)]
fn timed_at(network: &Network, groups: &[u32], k: u32) -> TimedArc
    requires within { k < length network.now.graph.arcs }
    requires graph { IsGoodGraph network.now.graph }
    requires grouped { k < length groups.now }
    ensures { IsTimedArc network.now groups.now k result }
{
    let a = ArcId(k + 1);
    let arc = network.graph().arc(a).unwrap();
    timed(arc, network.toll(a), groups[k as usize])
}

// All arcs, with their closed runs at the places of their groups. It isn't inlined, so that its loop has all registers.
#[inline(never)]
fn timed_arcs(
    alloc: Global,
    network: &Network,
    groups: &ArcGroups,
) -> Result<Vec<TimedArc>, OutOfMemory>
    requires { AreGroups network.now groups.now }
    ensures { IfOk result (λ arcs.
        AreTimed network.now groups.now.groups (length network.now.graph.arcs) arcs.items) }
{
    let of_arcs = groups.groups();
    let count = network.graph().arc_count();
    let mut arcs = Vec::with_capacity(alloc, count as usize)?;
    for k in 0..count {
        arcs.push_reserved(timed_at(network, of_arcs, k));
    }
    Ok(arcs)
}

// The net over these groups, where the lists have the closed minutes of the groups within the window, for some vehicle. The shut
// minutes of the timetables are added to the lists, of which a net can have as many as a u32 can name.
fn net_over(
    alloc: Global,
    network: &Network,
    groups: &ArcGroups,
    lists: Vec<Vec<Run>>,
    window: Run,
) -> Result<TimedNet, OutOfMemory>
    requires groups { AreGroups network.now groups.now }
    requires closed { AreClosedOnce network.now window groups.now.firsts
        (map (λ v. v.items) lists.items) }
    requires window { IsWindow window }
    ensures { IfOk result (λ net. (vehicle : VehicleModel) → AreClosedLists
        network.now vehicle window groups.now.firsts (map (λ v. v.items) lists.items)
        → IsNetFor network.now vehicle window (setting_of net)) }
{
    let nodes = network.graph().node_count();
    let arcs = timed_arcs(alloc, network, groups)?;
    let parks = network.parks();
    if parks.timetable_count() > u32::MAX as usize - lists.len() {
        return Err(OutOfMemory);
    }
    let held = parks_at(alloc, parks, nodes, lists.len() as u32)?;
    let mut shut = shut_lists(alloc, network, parks, window)?;
    let mut closed = lists;
    closed.append(&mut shut)?;
    Ok(TimedNet::new(nodes, arcs, closed, held))
}

/// The network as a net for the vehicle, as `expand_plain` makes it, over groups that `group_arcs` found.
///
/// It takes the time and memory of one `closed_set` for each group and of one `covered_minutes` for each area and hours of parks,
/// plus what is linear in nodes and arcs. It looks up no rules.
pub fn expand_groups(
    alloc: Global,
    network: &Network,
    groups: &ArcGroups,
    vehicle: &Vehicle,
    window: Run,
) -> Result<TimedNet, OutOfMemory>
    requires groups { AreGroups network.now groups.now }
    requires window { IsWindow window }
    ensures { IfOk result (λ net. IsNetFor network.now vehicle.now window (setting_of net)) }
{
    let closed = closed_lists(alloc, network, groups.firsts(), vehicle, window)?;
    let net = net_over(alloc, network, groups, closed, window)?;
    Ok(net)
}

/// The network as a net for the vehicle: an arc costs 1,000 thousandths for each of its minutes and its toll, it is closed at exactly
/// the minutes of the window at which it is closed to the vehicle, and one may wait at the nodes with a weight, except for exactly the
/// minutes of the window at which waiting there isn't open.
///
/// It takes the time and memory of `group_arcs` and then of `expand_groups`; where many nets of one network are made, call these,
/// and the first once.
/// For other callers: the program calls those two.
pub fn expand_plain(
    alloc: Global,
    network: &Network,
    vehicle: &Vehicle,
    window: Run,
) -> Result<TimedNet, OutOfMemory>
    requires { IsWindow window }
    ensures { IfOk result (λ net. IsNetFor network.now vehicle.now window (setting_of net)) }
{
    let groups = group_arcs(alloc, network)?;
    expand_groups(alloc, network, &groups, vehicle, window)
}

/// The net that `expand_plain` makes, with the closed minutes of its groups made by several workers at once, each in its part of the
/// groups; a worker goes through the gate before it begins a part.
///
/// It takes the time of `group_arcs`, of the longest part, and of one `covered_minutes` for each area and hours of parks, plus time
/// linear in nodes and arcs. There are at most eight parts, or two where no arc has rules of its own; a part takes one `closed_set` for
/// each of its groups, and a step for each area. A `closed_set` takes the `covered_minutes` of its hours, n log n for n closures, and
/// time linear in runs for each clause of its rules. The memory is that of `expand_plain` and, for each part but one, that of a worker,
/// of one `closed_set`, and of the runs in which areas are barred.
pub fn expand<R: Threads + Sync, G: Gate>(
    rt: &R,
    alloc: Global,
    network: &Network,
    vehicle: &Vehicle,
    window: Run,
    gate: &G,
) -> Result<TimedNet, OutOfMemory>
    requires { IsWindow window }
    ensures { IfOk result (λ net. IsNetFor network.now vehicle.now window (setting_of net)) }
{
    let groups = group_arcs(alloc, network)?;
    let firsts = groups.firsts();
    let closed = closed_lists_at_once(rt, alloc, network, firsts, vehicle, window, gate)?;
    let net = net_over(alloc, network, &groups, closed, window)?;
    Ok(net)
}
