// Least sums to a goal, by Dijkstra's search over reversed arcs, up to a cap.
ghost use Rattle.std.specs.Prelude.{◌≡◌, ◌≤◌, ◌<◌, ◌+◌, ◌*◌, ℕ, Option, Some, None, true, false, All, length, IfOk, OnOk};
ghost use Rattle.std.specs.Option.{IsSomeAnd};
ghost use Rattle.route_base.specs.Net.{IsGoodNet, road_of};
ghost use Rattle.label_queue.specs.Keys.{key_at};
ghost use Rattle.node_arcs.specs.Stars.{EndsAt, AreIncoming};
ghost use Rattle.node_arcs.specs.declared.links.End.TheVariants.{Head};
ghost use Rattle.label_queue.specs.Rising.{AdmitsFrom};
ghost use Rattle.potentials.specs.Inside.Summing.{GetsSum, IsSummed, AreSumsBelow, AreSmall, IsWide, WorksAt, unsettled_at};
ghost use Rattle.potentials.specs.Inside.Summing.{counted_on, most_on, IsOffer, HasOffer, IsArcRead, AreOffers, IsOfferTaken};

use label_queue::NodeQueue;
use node_arcs::NodeArcs;
use route_base::{ArcId, NodeId, OutOfMemory, TimedArc, TimedNet};
use std::alloc::Global;

/// The quantity that is summed over a walk.
#[derive(Clone, Copy)]
pub enum Counted {
    Minutes,
    Cost,
}

impl Counted {
    #[inline(always)]
    fn of(self, arc: TimedArc) -> u64
        ensures { result ≡ counted_on self (road_of arc) }
    {
        match self {
            Counted::Minutes => arc.minutes,
            Counted::Cost => arc.cost,
        }
    }
}

// Where the sums lead, what is summed, and the cap, from which on no sum is kept.
#[derive(Clone, Copy)]
pub struct Plan<'a> {
    net: &'a TimedNet,
    incoming: &'a NodeArcs,
    counted: Counted,
    goal: NodeId,
    cap: u64,
}

// A sum that an arc offers to the node at its tail.
#[derive(Clone, Copy)]
pub struct Offer {
    tail: NodeId,
    sum: u64,
}

/// The least sums to the goal that are below the cap, and that of the goal, one place for each node from 1 on. Only nodes with such a
/// sum are settled, and only the arcs that end at these are relaxed. The queue is empty before and after.
pub fn sums_below<Q: NodeQueue>(
    alloc: Global,
    net: &TimedNet,
    incoming: &NodeArcs,
    counted: Counted,
    goal: NodeId,
    cap: u64,
    queue: &mut Q,
) -> Result<Vec<Option<u64>>, OutOfMemory>
    requires incoming { AreIncoming net.now incoming.now }
    requires low { 1 ≤ goal.0 }
    requires high { goal.0 ≤ net.now.nodes }
    requires room { length (Q.keys queue.old) ≡ net.now.nodes }
    requires empty { (v : ℕ) → key_at (Q.keys queue.old) v ≡ None }
    requires start { Q.admits queue.old 0 }
    requires wide { IsWide net.now counted cap (Q.span queue.old) }
    ensures nodes { IfOk result (λ sums. length sums.items ≡ net.now.nodes) }
    ensures least { IfOk result (λ sums. AreSumsBelow net.now counted goal.0 cap sums.items) }
    ensures small { IfOk result (λ sums. AreSmall net.now counted sums.items) }
    ensures good { OnOk result (IsGoodNet net.now) }
{
    let nodes = net.node_count();
    let plan = Plan {
        net,
        incoming,
        counted,
        goal,
        cap,
    };
    let mut known = vec![in alloc; None; nodes as usize]?;
    known[goal.0 as usize - 1] = Some(0);
    queue.put(goal, 0)?;
    let mut offers = Vec::new(alloc);
    'turns: while let Some(least) = queue.take_least() {
        settle(plan, &mut known, queue, &mut offers, least.0, least.1)?;
    }
    Ok(known)
}

// Settles the node at work: each arc that ends there is relaxed. All arcs are read before the first sum is reached, so that the processor
// waits for all of them at once. It is inlined with all that it calls, so that each search has a loop that knows what it sums.
#[inline(always)]
fn settle<Q: NodeQueue>(
    plan: Plan<'_>,
    known: &mut Vec<Option<u64>>,
    queue: &mut Q,
    offers: &mut Vec<Offer>,
    v: NodeId,
    x: u64,
) -> Result<(), OutOfMemory>
    requires good { IsGoodNet plan.net.now }
    requires incoming { AreIncoming plan.net.now plan.incoming.now }
    requires low { 1 ≤ v.0 }
    requires high { v.0 ≤ plan.net.now.nodes }
    requires nodes { length known.old.items ≡ plan.net.now.nodes }
    requires room { length (Q.keys queue.old) ≡ plan.net.now.nodes }
    requires facts { IsSummed plan.net.now plan.counted plan.goal.0 plan.cap v.0
        known.old.items (Q.keys queue.old) }
    requires work { WorksAt plan.net.now plan.counted v.0 x known.old.items (Q.keys queue.old) }
    requires wide { IsWide plan.net.now plan.counted plan.cap (Q.span queue.old) }
    requires admits { AdmitsFrom (Q.admits queue.old) x (Q.span queue.old) }
    ensures nodes { OnOk result (length known.new.items ≡ plan.entry.net.now.nodes) }
    ensures room { OnOk result (length (Q.keys queue.new) ≡ plan.entry.net.now.nodes) }
    ensures facts { OnOk result (IsSummed plan.entry.net.now plan.entry.counted plan.entry.goal.0
        plan.entry.cap 0 known.new.items (Q.keys queue.new)) }
    ensures less { OnOk result (unsettled_at plan.entry.net.now known.new.items (Q.keys queue.new)
        ≤ unsettled_at plan.entry.net.now known.old.items (Q.keys queue.old)) }
    ensures span { Q.span queue.new ≡ Q.span queue.old }
{
    read_offers(plan, offers, v, x)?;
    take_offers(plan, known, queue, offers, v, x)?;
    Ok(())
}

// Puts the sums over the arcs that end at a node into a list, in the place of what it has, where they are below the cap.
#[inline(always)]
fn read_offers(
    plan: Plan<'_>,
    offers: &mut Vec<Offer>,
    v: NodeId,
    x: u64,
) -> Result<(), OutOfMemory>
    requires good { IsGoodNet plan.net.now }
    requires incoming { AreIncoming plan.net.now plan.incoming.now }
    requires room { x + most_on plan.counted ≤ most_on plan.counted * (plan.net.now.nodes + 1) }
    ensures { OnOk result (AreOffers plan.entry.net.now plan.entry.counted plan.entry.cap v.0 x
        offers.new.items) }
{
    offers.clear();
    for a in plan.incoming.of(v) {
        add_offer(plan, offers, v, x, *a)?;
    }
    Ok(())
}

// Adds the sum over an arc that ends at a node, where it is below the cap.
#[inline(always)]
fn add_offer(
    plan: Plan<'_>,
    offers: &mut Vec<Offer>,
    v: NodeId,
    x: u64,
    a: ArcId,
) -> Result<(), OutOfMemory>
    requires good { IsGoodNet plan.net.now }
    requires ends { EndsAt plan.net.now Head v.0 a.0 }
    requires room { x + most_on plan.counted ≤ most_on plan.counted * (plan.net.now.nodes + 1) }
    requires each { All (IsOffer plan.net.now plan.counted plan.cap v.0 x) offers.old.items }
    ensures each { OnOk result
        (All (IsOffer plan.entry.net.now plan.entry.counted plan.entry.cap v.0 x)
        offers.new.items) }
    ensures read { OnOk result (IsArcRead plan.entry.net.now plan.entry.counted plan.entry.cap x
        offers.new.items a.0) }
    ensures kept { OnOk result ((u sum : ℕ) → HasOffer offers.old.items u sum
        → HasOffer offers.new.items u sum) }
{
    let arc = plan.net.arcs()[a.0 as usize - 1];
    let sum = plan.counted.of(arc) + x;
    if sum >= plan.cap {
        return Ok(());
    }
    offers.push(Offer {
        tail: arc.tail,
        sum,
    })?;
    Ok(())
}

// Gives each node the sum that it is offered by an arc that ends at the node at work.
#[inline(always)]
fn take_offers<Q: NodeQueue>(
    plan: Plan<'_>,
    known: &mut Vec<Option<u64>>,
    queue: &mut Q,
    offers: &[Offer],
    v: NodeId,
    x: u64,
) -> Result<(), OutOfMemory>
    requires nodes { length known.old.items ≡ plan.net.now.nodes }
    requires room { length (Q.keys queue.old) ≡ plan.net.now.nodes }
    requires facts { IsSummed plan.net.now plan.counted plan.goal.0 plan.cap v.0
        known.old.items (Q.keys queue.old) }
    requires work { WorksAt plan.net.now plan.counted v.0 x known.old.items (Q.keys queue.old) }
    requires offers { AreOffers plan.net.now plan.counted plan.cap v.0 x offers.now }
    requires wide { IsWide plan.net.now plan.counted plan.cap (Q.span queue.old) }
    requires admits { AdmitsFrom (Q.admits queue.old) x (Q.span queue.old) }
    ensures nodes { OnOk result (length known.new.items ≡ plan.entry.net.now.nodes) }
    ensures room { OnOk result (length (Q.keys queue.new) ≡ plan.entry.net.now.nodes) }
    ensures facts { OnOk result (IsSummed plan.entry.net.now plan.entry.counted plan.entry.goal.0
        plan.entry.cap 0 known.new.items (Q.keys queue.new)) }
    ensures less { OnOk result (unsettled_at plan.entry.net.now known.new.items (Q.keys queue.new)
        ≤ unsettled_at plan.entry.net.now known.old.items (Q.keys queue.old)) }
    ensures span { Q.span queue.new ≡ Q.span queue.old }
{
    for offer in offers {
        take_offer(plan, known, queue, v, x, *offer)?;
    }
    Ok(())
}

// Gives a node the sum that it is offered by an arc that ends at the node at work.
#[inline(always)]
fn take_offer<Q: NodeQueue>(
    plan: Plan<'_>,
    known: &mut Vec<Option<u64>>,
    queue: &mut Q,
    v: NodeId,
    x: u64,
    offer: Offer,
) -> Result<(), OutOfMemory>
    requires nodes { length known.old.items ≡ plan.net.now.nodes }
    requires room { length (Q.keys queue.old) ≡ plan.net.now.nodes }
    requires facts { IsSummed plan.net.now plan.counted plan.goal.0 plan.cap v.0
        known.old.items (Q.keys queue.old) }
    requires work { WorksAt plan.net.now plan.counted v.0 x known.old.items (Q.keys queue.old) }
    requires offer { IsOffer plan.net.now plan.counted plan.cap v.0 x offer }
    requires wide { IsWide plan.net.now plan.counted plan.cap (Q.span queue.old) }
    requires admits { AdmitsFrom (Q.admits queue.old) x (Q.span queue.old) }
    ensures taken { OnOk result (IsOfferTaken plan.entry.net.now plan.entry.counted
        plan.entry.goal.0 plan.entry.cap v.0 x offer known.old.items known.new.items
        (Q.keys queue.old) (Q.keys queue.new)) }
    ensures span { Q.span queue.new ≡ Q.span queue.old }
    ensures admits { AdmitsFrom (Q.admits queue.new) x (Q.span queue.new) }
{
    reach(known, queue, offer.tail, offer.sum)?;
    Ok(())
}

// Gives the node this sum, where it has none or a larger one.
#[inline(always)]
fn reach<Q: NodeQueue>(
    known: &mut Vec<Option<u64>>,
    queue: &mut Q,
    u: NodeId,
    sum: u64,
) -> Result<(), OutOfMemory>
    requires low { 1 ≤ u.0 }
    requires high { u.0 ≤ length known.old.items }
    requires same { length (Q.keys queue.old) ≡ length known.old.items }
    requires waits { (v x : ℕ) → key_at (Q.keys queue.old) v ≡ Some x
        → key_at known.old.items v ≡ Some x }
    requires settled { (x : ℕ) → key_at known.old.items u.0 ≡ Some x
        → key_at (Q.keys queue.old) u.0 ≡ None → x ≤ sum }
    requires admitted { Q.admits queue.old sum }
    ensures reached { OnOk result (GetsSum u.0 sum (key_at known.old.items)
        (key_at known.new.items) (key_at (Q.keys queue.old)) (key_at (Q.keys queue.new))) }
    ensures nodes { OnOk result (length known.new.items ≡ length known.old.items) }
    ensures room { OnOk result (length (Q.keys queue.new) ≡ length (Q.keys queue.old)) }
    ensures span { Q.span queue.new ≡ Q.span queue.old }
    ensures admits { (key : ℕ) → Q.admits queue.old key → Q.admits queue.new key }
{
    let place = u.0 as usize - 1;
    let before = known[place];
    if has_within(before, sum) {
        return Ok(());
    }
    known[place] = Some(sum);
    match before {
        None => queue.put(u, sum)?,
        Some(_) => queue.lower(u, sum)?,
    }
    Ok(())
}

// Whether the sum that is known is no larger.
#[inline(always)]
fn has_within(known: Option<u64>, sum: u64) -> bool
    ensures yes { result ≡ true → IsSomeAnd known (λ least. least ≤ sum) }
    ensures no { result ≡ false → (x : ℕ) → known ≡ Some x → sum < x }
{
    match known {
        None => false,
        Some(least) => least <= sum,
    }
}
