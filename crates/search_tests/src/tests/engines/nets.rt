// Nets of plain lists.
ghost use Rattle.std.specs.Prelude.{◌≡◌, ◌≤◌, All, IfOk, IfSome, IsTrue, length};
ghost use Rattle.drive_breaks.specs.Words.{HasCheapArcs};
ghost use Rattle.route_base.specs.Runs.{AreRuns};
ghost use Rattle.search_tests.specs.SmallNets.{IsSmallArc, IsShortAndCheap, IsCheapArc, IsLight};

use route_base::limits::{COST_OF_MINUTE, HEAVIEST_WEIGHT};
use route_base::{OutOfMemory, Park, Run, TimedArc, TimedNet};
use std::alloc::Global;

/// A net as plain lists: nodes, arcs, the number of lists of closed runs, and runs with the place of their list.
#[derive(Clone, Copy)]
pub struct NetLists<'a> {
    pub nodes: u32,
    pub arcs: &'a [TimedArc],
    pub lists: u32,
    pub closed: &'a [(u32, Run)],
    pub parks: &'a [Option<Park>],
}

/// The net of the lists; `None` if they aren't those of a small well-formed net, or memory doesn't suffice.
pub fn whole_net(alloc: Global, lists: NetLists<'_>) -> Option<TimedNet>
    ensures { IfSome result (λ net. HasCheapArcs net) }
{
    match net_of(alloc, lists) {
        Ok(net) if net.arc_count() as usize == lists.arcs.len() => Some(net),
        _ => None,
    }
}

// The net of the lists, without what is no part of a small well-formed net.
fn net_of(alloc: Global, net: NetLists<'_>) -> Result<TimedNet, OutOfMemory>
    ensures { IfOk result (λ made. All IsCheapArc made.arcs) }
{
    let nodes = net.nodes.min(100);
    let lists = net.lists.min(100);
    let arcs = arcs_of(alloc, net.arcs, nodes, lists)?;
    let closed = closed_of(alloc, net.closed, lists)?;
    let parks = parks_of(alloc, net.parks, nodes, lists)?;
    Ok(TimedNet::new(nodes, arcs, closed, parks))
}

// The small arcs among these.
fn arcs_of(
    alloc: Global,
    given: &[TimedArc],
    nodes: u32,
    lists: u32,
) -> Result<Vec<TimedArc>, OutOfMemory>
    ensures small { IfOk result (λ arcs. All (IsSmallArc nodes lists) arcs.items) }
    ensures few { IfOk result (λ arcs. length arcs.items ≤ 100) }
{
    let mut arcs = Vec::new(alloc);
    for arc in given {
        if arcs.len() < 100 && is_small(*arc, nodes, lists) {
            arcs.push(*arc)?;
        }
    }
    Ok(arcs)
}

// Whether the arc is between these nodes, short and cheap, with one of these lists of closed runs.
fn is_small(arc: TimedArc, nodes: u32, lists: u32) -> bool
    ensures { IsTrue result → IsSmallArc nodes lists arc }
{
    let tail = 1 <= arc.tail.0 && arc.tail.0 <= nodes;
    let head = 1 <= arc.head.0 && arc.head.0 <= nodes;
    tail && head && is_cheap(arc) && arc.closed < lists
}

// Whether the arc is short, and its minutes cost no more than those of driving.
fn is_cheap(arc: TimedArc) -> bool
    ensures { IsTrue result → IsShortAndCheap arc }
{
    1 <= arc.minutes && arc.minutes <= 1000 && arc.cost <= COST_OF_MINUTE * arc.minutes
}

// The lists of closed runs.
fn closed_of(alloc: Global, given: &[(u32, Run)], lists: u32) -> Result<Vec<Vec<Run>>, OutOfMemory>
    ensures runs { IfOk result (λ closed. All (λ v. AreRuns v.items) closed.items) }
    ensures all { IfOk result (λ closed. length closed.items ≡ lists) }
{
    let mut closed = Vec::new(alloc);
    for list in 0..lists {
        closed.push(runs_of(alloc, given, list)?)?;
    }
    Ok(closed)
}

// The runs of a list, as far as they rise and don't touch.
fn runs_of(alloc: Global, given: &[(u32, Run)], list: u32) -> Result<Vec<Run>, OutOfMemory>
    ensures { IfOk result (λ runs. AreRuns runs.items) }
{
    let mut runs = Vec::new(alloc);
    let mut end = 0;
    for (place, run) in given {
        if *place == list && end < run.lo && run.lo < run.hi {
            runs.push(*run)?;
            end = run.hi;
        }
    }
    Ok(runs)
}

// A light park or none for each node.
fn parks_of(
    alloc: Global,
    given: &[Option<Park>],
    nodes: u32,
    lists: u32,
) -> Result<Vec<Option<Park>>, OutOfMemory>
    ensures light { IfOk result (λ parks. All (IsLight lists) parks.items) }
    ensures all { IfOk result (λ parks. length parks.items ≡ nodes) }
{
    let mut parks = Vec::new(alloc);
    for v in 0..nodes {
        parks.push(light(given.get(v as usize), lists))?;
    }
    Ok(parks)
}

fn light(park: Option<&Option<Park>>, lists: u32) -> Option<Park>
    ensures { IsLight lists result }
{
    match park {
        Some(Some(park)) => {
            if park.weight <= HEAVIEST_WEIGHT && park.shut < lists {
                Some(*park)
            } else {
                None
            }
        }
        _ => None,
    }
}
