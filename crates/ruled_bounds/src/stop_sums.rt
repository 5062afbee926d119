// What is paid above the least price of a minute on the way to each stop. How the sums are found isn't proved: a pass over the arcs and
// parks, and for each stage one over the arcs that lead into near nodes, checks them. At place 0, where no node is, stands what is far.
ghost use Rattle.std.specs.Prelude.{◌≡◌, ◌≤◌, ◌<◌, ℕ, All, IsTrue, IfOk, length, slice_get};
ghost use Rattle.route_base.specs.Net.{setting_of, road_of};
ghost use Rattle.ruled_states.specs.Inside.Reduced.{HoldsReduced, reduced_in, sums_of};
ghost use Rattle.ruled_states.specs.Inside.Services.{service_at};
ghost use Rattle.ruled_bounds.specs.Inside.Reducing.{EndsBy, HoldsInto, IsDearBy, IsPricedBy, IsReducedAlong, IsReducedBy};
ghost use Rattle.node_arcs.specs.Stars.{AreIncoming};

use crate::back_star::BackStar;
use crate::label_search::Ground;
use crate::radix_queue::{Entry, RadixQueue};
use route_base::{ArcId, NodeId, OutOfMemory, TimedArc, TimedNet};
use ruled_states::{ReducedSums, Ruler};
use std::alloc::Global;

// Whether the sums hold along the arc, at a stage.
#[inline(always)]
fn holds_along(sums: &ReducedSums, stage: u64, arc: TimedArc) -> bool
    ensures { IsTrue result → IsReducedAlong sums.now.price
        (reduced_in (sums_of sums.now.sums.items)) stage (road_of arc) }
{
    let Some(priced) = sums.price.checked_mul(arc.minutes) else {
        return false;
    };
    let Some(tail) = priced.checked_add(sums.of(arc.tail, stage)) else {
        return false;
    };
    tail <= arc.cost.saturating_add(sums.of(arc.head, stage))
}

// Whether the sums hold along the arc of this number, if there is one.
fn arc_holds(net: &TimedNet, sums: &ReducedSums, stage: u64, a: ArcId) -> bool
    ensures { IsTrue result → IsReducedBy sums.now.price
        (reduced_in (sums_of sums.now.sums.items)) stage ((setting_of net.now).road a.0) }
{
    match net.arc(a) {
        Some(arc) => holds_along(sums, stage, arc),
        None => true,
    }
}

// Whether the sums of a stage hold along each of the arcs.
fn each_holds(net: &TimedNet, sums: &ReducedSums, stage: u64, arcs: &[ArcId]) -> bool
    ensures { IsTrue result → All (λ a. IsReducedBy sums.now.price
        (reduced_in (sums_of sums.now.sums.items)) stage ((setting_of net.now).road a.0)) arcs.now }
{
    for a in arcs {
        if !arc_holds(net, sums, stage, *a) {
            return false;
        }
    }
    true
}

// Whether the sums of a stage hold along each arc into a node; where it is far, as far as any other, whether nothing comes from farther.
fn node_holds<R: Ruler>(ground: &Ground<'_, R>, sums: &ReducedSums, stage: u64, v: NodeId) -> bool
    ensures { IsTrue result → HoldsInto (setting_of ground.now.net.now) ground.now.incoming.now
        sums.now.price (reduced_in (sums_of sums.now.sums.items)) stage v.0 }
{
    let far = sums.of(NodeId(0), stage);
    let own = sums.of(v, stage);
    if own >= far {
        return own == far;
    }
    each_holds(ground.net, sums, stage, ground.incoming.of(v))
}

// Whether the sums of a stage hold along the arcs into each node.
fn nodes_hold<R: Ruler>(ground: &Ground<'_, R>, sums: &ReducedSums, stage: u64) -> bool
    ensures { IsTrue result → (v : ℕ) → 1 ≤ v → v ≤ ground.now.net.now.nodes
        → HoldsInto (setting_of ground.now.net.now) ground.now.incoming.now
        sums.now.price (reduced_in (sums_of sums.now.sums.items)) stage v }
{
    for k in 0..ground.net.node_count() {
        if !node_holds(ground, sums, stage, NodeId(k + 1)) {
            return false;
        }
    }
    true
}

// Whether the arc of this number costs no less than the price of its minutes, if there is one.
#[inline(always)]
fn is_dear(net: &TimedNet, price: u64, a: ArcId) -> bool
    ensures { IsTrue result → IsDearBy price ((setting_of net.now).road a.0) }
{
    match net.arc(a) {
        Some(arc) => match price.checked_mul(arc.minutes) {
            Some(priced) => priced <= arc.cost,
            None => false,
        },
        None => true,
    }
}

// Whether each arc costs no less than the price of its minutes.
fn are_dear(net: &TimedNet, price: u64) -> bool
    ensures { IsTrue result → (a : ℕ) → IsDearBy price ((setting_of net.now).road a) }
{
    for k in 0..net.arc_count() {
        if !is_dear(net, price, ArcId(k + 1)) {
            return false;
        }
    }
    true
}

// Whether no minute at the node is below the price, if it is rated.
fn is_priced(net: &TimedNet, price: u64, v: NodeId) -> bool
    ensures { IsTrue result → IsPricedBy price ((setting_of net.now).weight v.0) }
{
    match net.park(v) {
        Some(park) => price <= park.weight,
        None => true,
    }
}

// Whether no minute at a node is below the price.
fn are_priced(net: &TimedNet, price: u64) -> bool
    ensures { IsTrue result → (v : ℕ) → IsPricedBy price ((setting_of net.now).weight v) }
{
    for k in 0..net.node_count() {
        if !is_priced(net, price, NodeId(k + 1)) {
            return false;
        }
    }
    true
}

// Whether no minute is below the price, on an arc or at a node.
fn is_low(net: &TimedNet, price: u64) -> bool
    ensures waits { IsTrue result → (v : ℕ) → IsPricedBy price ((setting_of net.now).weight v) }
    ensures drives { IsTrue result → (a : ℕ) → IsDearBy price ((setting_of net.now).road a) }
{
    are_priced(net, price) && are_dear(net, price)
}

// Whether the sum at the stage's stop is nothing.
fn ends_in_nothing<R: Ruler>(ruler: &R, sums: &ReducedSums, stage: u64) -> bool
    ensures { IsTrue result → EndsBy (reduced_in (sums_of sums.now.sums.items)) stage
        (slice_get (R.ruling ruler.now).services stage) }
{
    match ruler.service(stage) {
        Some(service) => sums.of(service.node, stage) == 0,
        None => true,
    }
}

// Whether the sums of each stage hold.
fn stages_hold<R: Ruler>(ground: &Ground<'_, R>, sums: &ReducedSums) -> bool
    ensures nodes { IsTrue result → (i : ℕ) → i < length (R.ruling ground.now.ruler.now).services
        → (v : ℕ) → 1 ≤ v → v ≤ ground.now.net.now.nodes
        → HoldsInto (setting_of ground.now.net.now) ground.now.incoming.now
        sums.now.price (reduced_in (sums_of sums.now.sums.items)) i v }
    ensures stops { IsTrue result → (i : ℕ)
        → EndsBy (reduced_in (sums_of sums.now.sums.items)) i
        (slice_get (R.ruling ground.now.ruler.now).services i) }
{
    for stage in 0..ground.ruler.service_count() {
        if !nodes_hold(ground, sums, stage) || !ends_in_nothing(ground.ruler, sums, stage) {
            return false;
        }
    }
    true
}

// The least that a minute costs, over any arc or at any park, in whole thousandths.
fn least_price(net: &TimedNet) -> u64 {
    let mut least = u64::MAX;
    for k in 0..net.arc_count() {
        if let Some(arc) = net.arc(ArcId(k + 1)) {
            if arc.minutes > 0 {
                least = least.min(arc.cost / arc.minutes);
            }
        }
    }
    for k in 0..net.node_count() {
        if let Some(park) = net.park(NodeId(k + 1)) {
            least = least.min(park.weight);
        }
    }
    least
}

// More than any sum of a trip; less than half of the greatest number.
const FAR: u64 = 1 << 62;

// For each node, from 0 on, the least that is paid above the price on the way to a stop; for what is farther than where the stage begins, what
// is paid from there.
fn sums_to(
    alloc: Global,
    star: &BackStar,
    price: u64,
    count: usize,
    begin: NodeId,
    stop: NodeId,
) -> Result<Vec<u64>, OutOfMemory> {
    let mut sums = Vec::with_capacity(alloc, count)?;
    for _ in 0..count {
        sums.push(FAR)?;
    }
    let mut queue = RadixQueue::new(alloc)?;
    let mut end = FAR;
    if let Some(sum) = sums.get_mut(stop.0 as usize) {
        *sum = 0;
    }
    queue.push(Entry {
        value: 0,
        need: 0,
        node: stop.0,
    })?;
    for _ in 0..u64::MAX {
        let Some(entry) = queue.pop(alloc)? else {
            break;
        };
        if sums.get(entry.node as usize).copied() != Some(entry.value) {
            continue;
        }
        if entry.node == begin.0 {
            end = entry.value;
            break;
        }
        for arc in star.of(NodeId(entry.node)) {
            let paid = arc
                .cost
                .saturating_sub(price.saturating_mul(u64::from(arc.minutes)));
            let value = entry.value.saturating_add(paid);
            if let Some(sum) = sums.get_mut(arc.tail.0 as usize) {
                if value < *sum {
                    *sum = value;
                    queue.push(Entry {
                        value,
                        need: 0,
                        node: arc.tail.0,
                    })?;
                }
            }
        }
    }
    for v in 0..sums.len() {
        sums[v] = sums[v].min(end);
    }
    Ok(sums)
}

// The sums of each stage, at the least price.
fn found_sums<R: Ruler>(alloc: Global, ground: &Ground<'_, R>) -> Result<ReducedSums, OutOfMemory> {
    let star = BackStar::new(alloc, ground.net, ground.incoming)?;
    let price = least_price(ground.net);
    let count = ground.net.node_count() as usize + 1;
    let mut sums = Vec::new(alloc);
    let mut begin = ground.origin;
    for stage in 0..ground.ruler.service_count() {
        let Some(service) = ground.ruler.service(stage) else {
            break;
        };
        sums.push(sums_to(alloc, &star, price, count, begin, service.node)?)?;
        begin = service.node;
    }
    Ok(ReducedSums { price, sums })
}

/// The least price of a minute, and for each node and stop what is paid above it on any way there; none where there are no stops, where rests
/// matter, or if what is found doesn't hold. In each stage a search backwards from the stop goes as far as where the stage begins, and the arcs
/// into the nodes that it reached are checked: `O(m + n k + s log s)` for n nodes, m arcs, k stops and s such arcs.
pub fn reduced_sums<R: Ruler>(
    alloc: Global,
    ground: &Ground<'_, R>,
) -> Result<Option<ReducedSums>, OutOfMemory>
    requires incoming { AreIncoming ground.now.net.now ground.now.incoming.now }
    ensures { IfOk result (HoldsReduced (setting_of ground.now.net.now)
        (R.ruling ground.now.ruler.now)) }
{
    if ground.ruler.service_count() == 0 || !ground.ruler.rests().is_empty() {
        return Ok(None);
    }
    let sums = found_sums(alloc, ground)?;
    let _nodes = ground.net.node_count();
    if is_low(ground.net, sums.price) && stages_hold(ground, &sums) {
        return Ok(Some(sums));
    }
    Ok(None)
}
