// The layered net: one layer for each number of served stops.
ghost use Rattle.std.specs.Prelude.{◌≡◌, ◌+◌, ◌*◌, ◌^◌, ◌≤◌, ◌<◌, ◌++◌, length, map, All, IfOk, OnOk};
ghost use Rattle.stop_tour.specs.Words.{lifted, layered, copies, services, outside, closed_from, runs_and_rest, layered_lists};
ghost use Rattle.stop_tour.specs.Words.{tour_net, IsGoodStop, tour_size_of};
ghost use Rattle.front_transport.specs.declared.limits.TheConstants.{MOST_STATES};

use crate::Stop;
use front_transport::copied_lists;
use route_base::{Minute, NodeId, OutOfMemory, Park, Run, TimedArc, TimedNet};
use std::alloc::Global;

// Adds the arcs of a layer, whose nodes have numbers that are higher by this, and whose lists of closed runs are further on.
fn push_layer(
    out: &mut Vec<TimedArc>,
    arcs: &[TimedArc],
    by: u32,
    place: u32,
) -> Result<(), OutOfMemory>
    requires nodes { All (λ a. (by + a.tail.0 < 2 ^ 32) × (by + a.head.0 < 2 ^ 32)) arcs.now }
    requires closed { All (λ a. place + a.closed < 2 ^ 32) arcs.now }
    ensures { OnOk result (out.new.items ≡ out.old.items ++ map (lifted by place) arcs.now) }
{
    for arc in arcs {
        out.push(TimedArc {
            tail: NodeId(by + arc.tail.0),
            head: NodeId(by + arc.head.0),
            closed: place + arc.closed,
            ..*arc
        })?;
    }
    Ok(())
}

// The arcs of all layers, with room for a service of each.
fn layered_arcs(
    alloc: Global,
    net: &TimedNet,
    lists: u32,
    last: u32,
) -> Result<Vec<TimedArc>, OutOfMemory>
    requires lists { lists ≡ length net.now.closed }
    requires few { last < MOST_STATES }
    requires nodes { (last + 1) * net.now.nodes ≤ MOST_STATES }
    requires arcs { (last + 1) * length net.now.arcs ≤ MOST_STATES }
    requires closed { (last + 1) * lists < 2 ^ 32 }
    ensures { IfOk result (λ out. out.items
        ≡ layered net.now.nodes lists last net.now.arcs (last + 1)) }
{
    let nodes = net.node_count();
    let arcs = net.arcs();
    let layers = last as usize + 1;
    let mut out = Vec::with_capacity(alloc, layers * arcs.len() + layers)?;
    for k in 0..last + 1 {
        push_layer(&mut out, arcs, k * nodes, (last - k) * lists)?;
    }
    Ok(out)
}

// Adds the services, each from a layer to the next.
fn push_services(
    out: &mut Vec<TimedArc>,
    nodes: u32,
    place: u32,
    stops: &[Stop],
) -> Result<(), OutOfMemory>
    requires fit { (length stops.now + 1) * nodes ≤ MOST_STATES }
    requires low { All (λ st. st.node.0 ≤ nodes) stops.now }
    requires place { place + length stops.now < 2 ^ 32 }
    ensures { OnOk result (out.new.items ≡ out.old.items ++ services nodes place 0 stops.now) }
{
    for i in 0..stops.len() {
        let stop = stops[i];
        let layer = i as u32;
        out.push(TimedArc {
            tail: NodeId(layer * nodes + stop.node.0),
            head: NodeId((layer + 1) * nodes + stop.node.0),
            minutes: stop.service,
            cost: 0,
            closed: place + layer,
        })?;
    }
    Ok(())
}

// The parks of all layers.
fn copied_parks(
    alloc: Global,
    parks: &[Option<Park>],
    layers: u32,
) -> Result<Vec<Option<Park>>, OutOfMemory>
    requires { layers * length parks.now ≤ MOST_STATES }
    ensures { IfOk result (λ out. out.items ≡ copies parks.now layers) }
{
    let mut out = Vec::with_capacity(alloc, layers as usize * parks.len())?;
    for _k in 0..layers {
        out.extend_from_slice(parks)?;
    }
    Ok(out)
}

// The minutes before the horizon that are outside the window of a stop.
fn outside_runs(alloc: Global, until: Minute, stop: Stop) -> Result<Vec<Run>, OutOfMemory>
    ensures { IfOk result (λ out. out.items ≡ outside until stop) }
{
    let mut out = Vec::new(alloc);
    if 0 < stop.from {
        out.push(Run {
            lo: 0,
            hi: stop.from,
        })?;
    }
    if stop.to < until {
        out.push(Run {
            lo: stop.to,
            hi: until,
        })?;
    }
    Ok(out)
}

// Adds a run from a minute to the horizon, if there is any.
fn push_rest(out: &mut Vec<Run>, late: Minute, horizon: Minute) -> Result<(), OutOfMemory>
    ensures { OnOk result (out.new.items ≡ out.old.items ++ closed_from late horizon) }
{
    if late < horizon {
        out.push(Run {
            lo: late,
            hi: horizon,
        })?;
    }
    Ok(())
}

// The runs, and all minutes from one on to the horizon. The list has room for the runs that end before, and for one more.
fn runs_with_rest(
    alloc: Global,
    runs: &[Run],
    late: Minute,
    until: Minute,
) -> Result<Vec<Run>, OutOfMemory>
    ensures { IfOk result (λ out. out.items ≡ runs_and_rest late until runs.now) }
{
    let before = runs.partition_point(|run| run.hi < late);
    let mut out = Vec::with_capacity(alloc, before + 1)?;
    for i in 0..runs.len() {
        let run = runs[i];
        if run.hi >= late {
            push_rest(&mut out, run.lo.min(late), until)?;
            return Ok(out);
        }
        out.push(run)?;
    }
    push_rest(&mut out, late, until)?;
    Ok(out)
}

// Adds the lists of a layer, closed from a minute on.
fn push_lists(
    alloc: Global,
    out: &mut Vec<Vec<Run>>,
    lists: &[Vec<Run>],
    late: Minute,
    until: Minute,
) -> Result<(), OutOfMemory>
    ensures { OnOk result (map (λ v. v.items) out.new.items ≡ map (λ v. v.items) out.old.items
        ++ map (runs_and_rest late until) (map (λ v. v.items) lists.now)) }
{
    for list in lists {
        out.push(runs_with_rest(alloc, list.as_slice(), late, until)?)?;
    }
    Ok(())
}

// The lists of closed runs of all layers, the last layer first.
fn layer_lists(
    alloc: Global,
    lists: &[Vec<Run>],
    until: Minute,
    stops: &[Stop],
) -> Result<Vec<Vec<Run>>, OutOfMemory>
    ensures { IfOk result (λ out. map (λ v. v.items) out.items
        ≡ layered_lists until (map (λ v. v.items) lists.now) stops.now) }
{
    let mut out = copied_lists(alloc, lists)?;
    out.reserve_exact(lists.len().saturating_add(1).saturating_mul(stops.len()))?;
    let mut late = until;
    let mut left = stops.len();
    while left > 0 {
        left -= 1;
        let stop = stops[left];
        late = stop.to.min(late).saturating_sub(stop.service);
        push_lists(alloc, &mut out, lists, late, until)?;
    }
    Ok(out)
}

// Adds a list for each stop, in which its service is closed.
fn push_windows(
    alloc: Global,
    lists: &mut Vec<Vec<Run>>,
    until: Minute,
    stops: &[Stop],
) -> Result<(), OutOfMemory>
    ensures { OnOk result (map (λ v. v.items) lists.new.items
        ≡ map (λ v. v.items) lists.old.items ++ map (outside until) stops.now) }
{
    for stop in stops {
        lists.push(outside_runs(alloc, until, *stop)?)?;
    }
    Ok(())
}

/// The layered net of a net and stops. Linear in the net and its closed runs, for each number of served stops. `OutOfMemory` also where
/// the lists of closed runs would have no numbers.
pub fn layered_net(
    alloc: Global,
    net: &TimedNet,
    stops: &[Stop],
    until: Minute,
) -> Result<TimedNet, OutOfMemory>
    requires some { 1 ≤ net.now.nodes }
    requires stops { All (IsGoodStop net.now) stops.now }
    requires size { tour_size_of net.now stops.now ≤ MOST_STATES }
    ensures { IfOk result (λ made. made ≡ tour_net net.now stops.now until) }
{
    let old = net.closed_lists();
    let last = stops.len() as u32;
    let nodes = net.node_count();
    let count = (last as u64 + 1) * old.len() as u64;
    if count + last as u64 > u32::MAX as u64 {
        return Err(OutOfMemory);
    }
    let mut arcs = layered_arcs(alloc, net, old.len() as u32, last)?;
    push_services(&mut arcs, nodes, count as u32, stops)?;
    let mut closed = layer_lists(alloc, old, until, stops)?;
    push_windows(alloc, &mut closed, until, stops)?;
    let parks = copied_parks(alloc, net.parks(), last + 1)?;
    Ok(TimedNet::new((last + 1) * nodes, arcs, closed, parks))
}
