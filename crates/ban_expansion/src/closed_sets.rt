// The minutes of a window at which an arc is closed to a vehicle.
ghost use Rattle.std.specs.Prelude.{◌≡◌, ◌≤◌, ◌<◌, ◌&&◌, ℕ, not, length, IfOk};
ghost use Rattle.ban_expansion.specs.Words.{any_has, has_minute, AreRuns, last_given, closures_of, IsWindow, VehicleModel};
ghost use Rattle.ban_expansion.specs.Words.{area_at, given_at, places_of_key, is_let_in, is_closed, HasThose, Lays};

use crate::circumstances::Circumstances;
use minute_sets::MinuteSet;
use network_tables::Network;
use route_base::{ArcId, OutOfMemory, Run};
use std::alloc::Global;
use vehicle_classes::{Key, Vehicle, chain_at};

// The closed minutes once the values at the places of a key are laid over them.
fn lay_key(
    alloc: Global,
    closed: MinuteSet,
    network: &Network,
    vehicle: &Vehicle,
    area: usize,
    a: ArcId,
    key: Key,
    window: Run,
) -> Result<MinuteSet, OutOfMemory>
    requires area { area < length network.now.areas }
    requires window { IsWindow window }
    ensures { IfOk result (Lays vehicle.now.purpose window
        (λ t. last_given (given_at network.now (area_at network.now area) vehicle.now t)
        (places_of_key area a.0 key)) closed) }
{
    let here = Circumstances {
        vehicle,
        zone: network.zone_of(area),
        holidays: network.holidays_of(area),
        window,
    };
    let closed = here.lay_plain(alloc, closed, network.area_plain(area, key))?;
    let closed = here.lay_conditional(alloc, closed, network.area_conditional(area, key))?;
    let closed = here.lay_plain(alloc, closed, network.arc_plain(a, key))?;
    let closed = here.lay_conditional(alloc, closed, network.arc_conditional(a, key))?;
    Ok(closed)
}

/// The minutes of the window at which the arc's access doesn't let the vehicle in.
pub fn barred_set(
    alloc: Global,
    network: &Network,
    vehicle: &Vehicle,
    a: ArcId,
    window: Run,
) -> Result<MinuteSet, OutOfMemory>
    requires low { 1 ≤ a.0 }
    requires high { a.0 ≤ length network.now.graph.arcs }
    requires window { IsWindow window }
    ensures { IfOk result (HasThose window (λ t. not (is_let_in network.now vehicle.now a.0 t))) }
{
    let area = network.area_of(a);
    let mut closed = MinuteSet::empty(alloc);
    let mut k: usize = 0;
    'keys: while let Some(key) = chain_at(vehicle.class(), k) {
        closed = lay_key(alloc, closed, network, vehicle, area, a, key, window)?;
        k += 1;
    }
    Ok(closed)
}

// The minutes of the window that a run has.
fn clipped(run: Run, window: Run) -> Run
    ensures { (t : ℕ) → has_minute t result ≡ (has_minute t window && has_minute t run) }
{
    Run {
        lo: run.lo.max(window.lo),
        hi: run.hi.min(window.hi),
    }
}

// The minutes of the window that are in closures of the arc, of any number.
#[inline(never)]
fn merged_closures(
    alloc: Global,
    network: &Network,
    a: ArcId,
    window: Run,
) -> Result<MinuteSet, OutOfMemory>
    requires low { 1 ≤ a.0 }
    requires high { a.0 ≤ length network.now.graph.arcs }
    ensures minutes { IfOk result (HasThose window (any_has (closures_of network.now a.0))) }
    ensures runs { IfOk result AreRuns }
{
    let count = network.closure_count(a);
    let mut runs = Vec::with_capacity(alloc, count)?;
    for k in 0..count {
        runs.push(network.closure(a, k))?;
    }
    let closures = MinuteSet::from_runs(alloc, runs.as_slice())?;
    let set = MinuteSet::whole(alloc, window)?.intersection(alloc, &closures)?;
    Ok(set)
}

// The minutes of the window that are in closures of the arc.
fn closure_set(
    alloc: Global,
    network: &Network,
    a: ArcId,
    window: Run,
) -> Result<MinuteSet, OutOfMemory>
    requires low { 1 ≤ a.0 }
    requires high { a.0 ≤ length network.now.graph.arcs }
    ensures minutes { IfOk result (HasThose window (any_has (closures_of network.now a.0))) }
    ensures runs { IfOk result AreRuns }
{
    let count = network.closure_count(a);
    if count == 0 {
        return Ok(MinuteSet::empty(alloc));
    }
    if count == 1 {
        let run = network.closure(a, 0);
        let set = MinuteSet::whole(alloc, clipped(run, window))?;
        return Ok(set);
    }
    merged_closures(alloc, network, a, window)
}

/// The minutes of the window at which the arc is closed to a vehicle, of which the barred ones are those at which its access doesn't
/// let the vehicle in. Linear in their runs; beside, n log n for n closures.
#[inline(always)]
pub fn closed_over(
    alloc: Global,
    network: &Network,
    barred: &MinuteSet,
    a: ArcId,
    window: Run,
) -> Result<MinuteSet, OutOfMemory>
    requires low { 1 ≤ a.0 }
    requires high { a.0 ≤ length network.now.graph.arcs }
    ensures minutes { IfOk result (λ set. (vehicle : VehicleModel) →
        HasThose window (λ t. not (is_let_in network.now vehicle a.0 t)) barred.now
        → HasThose window (is_closed network.now vehicle a.0) set) }
    ensures runs { IfOk result AreRuns }
{
    let closures = closure_set(alloc, network, a, window)?;
    if barred.runs().is_empty() {
        return Ok(closures);
    }
    barred.union(alloc, &closures)
}

/// The minutes of the window at which the arc is closed to the vehicle.
///
/// For each conditional value of the keys of the vehicle's class it takes the time and memory of `covered_minutes` for each of
/// its hours, except those in a clause behind parts that leave no minute of the window; and for each clause time linear in the
/// runs of its parts and of what is closed so far; beside, n log n for n closures of the arc. It takes memory for a few such sets.
pub fn closed_set(
    alloc: Global,
    network: &Network,
    vehicle: &Vehicle,
    a: ArcId,
    window: Run,
) -> Result<MinuteSet, OutOfMemory>
    requires low { 1 ≤ a.0 }
    requires high { a.0 ≤ length network.now.graph.arcs }
    requires window { IsWindow window }
    ensures minutes { IfOk result (HasThose window (is_closed network.now vehicle.now a.0)) }
    ensures runs { IfOk result AreRuns }
{
    let barred = barred_set(alloc, network, vehicle, a, window)?;
    closed_over(alloc, network, &barred, a, window)
}
