// Makes the closed minutes of groups of arcs, one after another or in parts that workers make at once.
ghost use Rattle.std.specs.Prelude.{◌<◌, ◌+◌, ◌≤◌, All, map, IfOk};
ghost use Rattle.std.specs.Thread.{IsSync};
ghost use Rattle.ban_expansion.specs.Words.{AreClosedLists, IsArc, IsWindow};

use crate::area_bans::AreaBans;
use network_tables::Network;
use route_base::{ArcId, Gate, OutOfMemory, Run};
use std::alloc::Global;
use std::thread::{Threads, join};
use vehicle_classes::Vehicle;

// The most parts, each of which a worker makes.
const MOST_PARTS: usize = 8;

/// For each of these arcs its closed minutes of the window, one after another.
pub fn closed_lists(
    alloc: Global,
    network: &Network,
    firsts: &[ArcId],
    vehicle: &Vehicle,
    window: Run,
) -> Result<Vec<Vec<Run>>, OutOfMemory>
    requires arcs { All (IsArc network.now) firsts.now }
    requires window { IsWindow window }
    ensures { IfOk result (λ lists. AreClosedLists network.now vehicle.now window firsts.now
        (map (λ v. v.items) lists.items)) }
{
    let mut bans = AreaBans::new(alloc, network.area_count())?;
    let mut lists = Vec::with_capacity(alloc, firsts.len())?;
    for first in firsts {
        let set = bans.closed_to(alloc, network, vehicle, *first, window)?;
        lists.push(set.into_runs())?;
    }
    Ok(lists)
}

// The same in `parts` consecutive parts, numbered from `part` on, whose lengths differ by one at most: half of them are made beside the
// other half.
fn closed_parts<R: Threads + Sync, G: Gate>(
    rt: &R,
    alloc: Global,
    network: &Network,
    firsts: &[ArcId],
    vehicle: &Vehicle,
    window: Run,
    part: usize,
    parts: usize,
    gate: &G,
) -> Result<Vec<Vec<Run>>, OutOfMemory>
    requires arcs { All (IsArc network.now) firsts.now }
    requires window { IsWindow window }
    requires some { 1 ≤ parts }
    requires few { part + parts ≤ 8 }
    ensures { IfOk result (λ lists. AreClosedLists network.now vehicle.now window firsts.now
        (map (λ v. v.items) lists.items)) }
{
    if parts == 1 {
        gate.enter(part);
        return closed_lists(alloc, network, firsts, vehicle, window);
    }
    let left_parts = parts / 2;
    let share = firsts.len() / parts;
    let longer = firsts.len() % parts;
    let middle = left_parts * share + left_parts.min(longer);
    let (front, back) = firsts.split_at(middle);
    let (left, right) = join(
        rt,
        || -> Result<Vec<Vec<Run>>, OutOfMemory>
            requires shared { IsSync R.row × IsSync G.row }
            requires arcs { All (IsArc network.now) front.now }
            requires window { IsWindow window }
            requires some { 1 ≤ left_parts }
            requires few { part + left_parts ≤ 8 }
            ensures { IfOk result (λ lists. AreClosedLists network.entry.now vehicle.entry.now
                window front.entry.now
                (map (λ v. v.items) lists.items)) }
        {
            closed_parts(
                rt, alloc, network, front, vehicle, window, part, left_parts, gate,
            )
        },
        || -> Result<Vec<Vec<Run>>, OutOfMemory>
            requires shared { IsSync R.row × IsSync G.row }
            requires arcs { All (IsArc network.now) back.now }
            requires window { IsWindow window }
            requires some { 1 ≤ left_parts }
            requires rest { left_parts < parts }
            requires few { part + parts ≤ 8 }
            ensures { IfOk result (λ lists. AreClosedLists network.entry.now vehicle.entry.now
                window back.entry.now
                (map (λ v. v.items) lists.items)) }
        {
            closed_parts(
                rt,
                alloc,
                network,
                back,
                vehicle,
                window,
                part + left_parts,
                parts - left_parts,
                gate,
            )
        },
    );
    let mut lists = left?;
    lists.append(&mut right?)?;
    Ok(lists)
}

// The most parts where no arc has rules of its own: each takes less time than it takes to start many workers.
const FEW_PARTS: usize = 2;

// The number of parts for this number of arcs.
fn part_count(network: &Network, arcs: usize) -> usize
    ensures some { 1 ≤ arcs → 1 ≤ result }
    ensures few { result ≤ 8 }
{
    if network.has_arc_rules() {
        arcs.min(MOST_PARTS)
    } else {
        arcs.min(FEW_PARTS)
    }
}

/// The same in as many parts as there are arcs, but at most eight, or two where no arc of the network has rules of its own. Workers make
/// the parts at once. A worker goes through the gate before it begins a part. It takes the time of the longest part, and a thread for
/// each part but one.
pub fn closed_lists_at_once<R: Threads + Sync, G: Gate>(
    rt: &R,
    alloc: Global,
    network: &Network,
    firsts: &[ArcId],
    vehicle: &Vehicle,
    window: Run,
    gate: &G,
) -> Result<Vec<Vec<Run>>, OutOfMemory>
    requires arcs { All (IsArc network.now) firsts.now }
    requires window { IsWindow window }
    ensures { IfOk result (λ lists. AreClosedLists network.now vehicle.now window firsts.now
        (map (λ v. v.items) lists.items)) }
{
    let parts = part_count(network, firsts.len());
    if parts == 0 {
        return Ok(Vec::new(alloc));
    }
    closed_parts(rt, alloc, network, firsts, vehicle, window, 0, parts, gate)
}
