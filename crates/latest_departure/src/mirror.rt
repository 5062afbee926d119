// The net mirrored in time.
ghost use Rattle.std.specs.Prelude.{◌≡◌, ◌+◌, ◌≤◌, ◌<◌, ◌^◌, ◌++◌, ◌∷◌, [], IfOk, Some, length, map};
ghost use Rattle.latest_departure.specs.Words.{mirrored_runs, mirrored_lists_of, turned, free_park, mirrored};
ghost use Rattle.route_base.specs.declared.limits.TheConstants.{MOST_NET_NODES};

use route_base::{Minute, NodeId, OutOfMemory, Park, Run, TimedArc, TimedNet};
use std::alloc::Global;

// The runs that begin before the sum, mirrored, the last first.
fn mirrored_list(alloc: Global, runs: &[Run], sum: Minute) -> Result<Vec<Run>, OutOfMemory>
    ensures { IfOk result (λ out. out.items ≡ mirrored_runs sum runs.now) }
{
    let mut out = Vec::with_capacity(alloc, runs.len())?;
    let mut left = runs.len();
    while left > 0 {
        left -= 1;
        let run = runs[left];
        if run.lo < sum {
            out.push(Run {
                lo: sum.saturating_sub(run.hi),
                hi: sum - run.lo,
            })?;
        }
    }
    Ok(out)
}

// All lists of closed runs mirrored, and an empty one behind them.
fn mirrored_lists(
    alloc: Global,
    lists: &[Vec<Run>],
    sum: Minute,
) -> Result<Vec<Vec<Run>>, OutOfMemory>
    ensures { IfOk result (λ out. map (λ v. v.items) out.items
        ≡ mirrored_lists_of sum (map (λ v. v.items) lists.now)) }
{
    let mut out = Vec::with_capacity(alloc, lists.len() + 1)?;
    for list in lists {
        out.push(mirrored_list(alloc, list.as_slice(), sum)?)?;
    }
    out.push(Vec::new(alloc))?;
    Ok(out)
}

// All arcs turned round, and the last one as it is.
fn turned_arcs(
    alloc: Global,
    arcs: &[TimedArc],
    last: TimedArc,
) -> Result<Vec<TimedArc>, OutOfMemory>
    ensures { IfOk result (λ out. out.items ≡ map turned arcs.now ++ last ∷ []) }
{
    let mut out = Vec::with_capacity(alloc, arcs.len() + 1)?;
    for arc in arcs {
        out.push(TimedArc {
            tail: arc.head,
            head: arc.tail,
            ..*arc
        })?;
    }
    out.push(last)?;
    Ok(out)
}

// All parks, and one behind them where waiting is free and never shut.
fn parks_and_free(
    alloc: Global,
    parks: &[Option<Park>],
    empty: u32,
) -> Result<Vec<Option<Park>>, OutOfMemory>
    ensures { IfOk result (λ out. out.items ≡ parks.now ++ Some (free_park empty) ∷ []) }
{
    let mut out = Vec::from_slice(alloc, parks)?;
    out.push(Some(Park {
        weight: 0,
        shut: empty,
    }))?;
    Ok(out)
}

/// The net mirrored in time, with a further node before the goal. Linear in the net. `OutOfMemory` also where the list of closed
/// runs that it adds would have no number.
pub fn mirrored_net(
    alloc: Global,
    net: &TimedNet,
    goal: NodeId,
    sum: Minute,
) -> Result<TimedNet, OutOfMemory>
    requires low { 1 ≤ goal.0 }
    requires high { goal.0 ≤ net.now.nodes }
    requires nodes { net.now.nodes < MOST_NET_NODES }
    requires arcs { length net.now.arcs + 1 < 2 ^ 32 }
    ensures { IfOk result (λ made. made ≡ mirrored net.now goal.0 sum) }
{
    let lists = net.closed_lists();
    if lists.len() >= u32::MAX as usize {
        return Err(OutOfMemory);
    }
    let closed = mirrored_lists(alloc, lists, sum)?;
    let empty = lists.len() as u32;
    let nodes = net.node_count() + 1;
    let last = TimedArc {
        tail: NodeId(nodes),
        head: goal,
        minutes: 1,
        cost: 0,
        closed: empty,
    };
    let arcs = turned_arcs(alloc, net.arcs(), last)?;
    let parks = parks_and_free(alloc, net.parks(), empty)?;
    Ok(TimedNet::new(nodes, arcs, closed, parks))
}
