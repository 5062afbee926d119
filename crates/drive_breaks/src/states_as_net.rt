// The net over states.
ghost use Rattle.std.specs.Prelude.{◌≡◌, ◌+◌, ◌≤◌, ◌++◌, ◌∷◌, [], None, false, length, map, All, IsTrue, IfOk, OnOk};
ghost use Rattle.drive_breaks.specs.Words.{setting_of, park_at, IsGoodNet, IsSoundWay, IsArcFor, Arrives};
ghost use Rattle.drive_breaks.specs.Words.{AreBuilt, AddsWay, net_over};
ghost use Rattle.front_transport.specs.declared.limits.TheConstants.{MOST_STATES};
ghost use Rattle.route_base.specs.declared.limits.TheConstants.{DAY_MINUTES};

use drive_states::{BreakRule, State, Way};
use front_transport::copied_lists;
use route_base::{ArcId, Leg, NodeId, OutOfMemory, Park, TimedArc, TimedNet};
use std::alloc::Global;

// A net, the rule and the goal of a trip over it, and its states.
#[derive(Clone, Copy)]
pub struct Ground<'a> {
    pub net: &'a TimedNet,
    pub rule: BreakRule,
    pub goal: NodeId,
    pub states: &'a [State],
}

// An arc of one minute without a cost, where the net has none.
fn free_arc(tail: NodeId, head: NodeId) -> TimedArc {
    TimedArc {
        tail,
        head,
        minutes: 1,
        cost: 0,
        closed: 0,
    }
}

// A drive over states.
fn drive_arc(ground: Ground<'_>, way: Way, a: ArcId) -> TimedArc
    requires sound { IsSoundWay (setting_of ground.net.now) ground.rule ground.states.now way }
    requires leg { way.leg ≡ Leg.Drive a }
    ensures { IsArcFor ground.entry.net.now ground.entry.states.now way.from way.to
        (Leg.Drive a) result }
{
    let tail = NodeId(way.from);
    let head = NodeId(way.to);
    match ground.net.arc(a) {
        Some(base) => TimedArc { tail, head, ..base },
        None => free_arc(tail, head),
    }
}

// A break over states.
fn break_arc(ground: Ground<'_>, way: Way, minutes: u64) -> TimedArc
    requires sound { IsSoundWay (setting_of ground.net.now) ground.rule ground.states.now way }
    requires rest { ground.rule.rest ≤ DAY_MINUTES }
    requires leg { way.leg ≡ Leg.Wait minutes }
    ensures { IsArcFor ground.entry.net.now ground.entry.states.now way.from way.to
        (Leg.Wait minutes) result }
{
    let from = ground.states[way.from as usize - 1];
    let tail = NodeId(way.from);
    let head = NodeId(way.to);
    match ground.net.park(from.node) {
        Some(park) => TimedArc {
            tail,
            head,
            minutes,
            cost: minutes * park.weight,
            closed: park.shut,
        },
        None => free_arc(tail, head),
    }
}

// The arc over states of a way.
fn arc_of(ground: Ground<'_>, way: Way) -> TimedArc
    requires sound { IsSoundWay (setting_of ground.net.now) ground.rule ground.states.now way }
    requires rest { ground.rule.rest ≤ DAY_MINUTES }
    ensures { IsArcFor ground.entry.net.now ground.entry.states.now way.from way.to way.leg
        result }
{
    match way.leg {
        Leg::Drive(a) => drive_arc(ground, way, a),
        Leg::Wait(minutes) => break_arc(ground, way, minutes),
    }
}

// Whether the way is a drive to the goal.
fn arrives(ground: Ground<'_>, way: Way) -> bool
    requires sound { IsSoundWay (setting_of ground.net.now) ground.rule ground.states.now way }
    ensures yes { IsTrue result → Arrives ground.entry.states.now ground.entry.goal.0 way }
    ensures no { result ≡ false → Arrives ground.entry.states.now ground.entry.goal.0 way → ⊥ }
{
    match way.leg {
        Leg::Drive(_) => ground.states[way.to as usize - 1].node.0 == ground.goal.0,
        Leg::Wait(_) => false,
    }
}

/// Arcs over states, and the leg of each.
#[derive(Drop)]
pub struct StateArcs {
    pub arcs: Vec<TimedArc>,
    pub sources: Vec<Leg>,
}

// Adds an arc with its leg.
fn push_arc(built: &mut StateArcs, arc: TimedArc, leg: Leg) -> Result<(), OutOfMemory>
    ensures { OnOk result ((built.new.arcs.items ≡ built.old.arcs.items ++ arc ∷ [])
        × (built.new.sources.items ≡ built.old.sources.items ++ leg ∷ [])) }
{
    built.arcs.push(arc)?;
    built.sources.push(leg)?;
    Ok(())
}

// Adds the arc of a way, and where it arrives, its copy to the node behind all states.
fn push_way(ground: Ground<'_>, built: &mut StateArcs, way: Way) -> Result<(), OutOfMemory>
    requires sound { IsSoundWay (setting_of ground.net.now) ground.rule ground.states.now way }
    requires rest { ground.rule.rest ≤ DAY_MINUTES }
    requires small { length ground.states.now ≤ MOST_STATES }
    ensures { OnOk result (AddsWay ground.entry.net.now ground.entry.states.now
        ground.entry.goal.0 way built.old.arcs.items built.new.arcs.items
        built.old.sources.items built.new.sources.items) }
{
    let arc = arc_of(ground, way);
    push_arc(built, arc, way.leg)?;
    if !arrives(ground, way) {
        return Ok(());
    }
    let last = NodeId(ground.states.len() as u32 + 1);
    push_arc(built, TimedArc { head: last, ..arc }, way.leg)
}

/// The arcs of all ways, each with its leg, and copies of those that arrive. Linear in the ways, whose memory is given back.
pub fn state_arcs(
    alloc: Global,
    ground: Ground<'_>,
    ways: Vec<Way>,
) -> Result<StateArcs, OutOfMemory>
    requires sound { All (IsSoundWay (setting_of ground.net.now) ground.rule ground.states.now)
        ways.items }
    requires rest { ground.rule.rest ≤ DAY_MINUTES }
    requires small { length ground.states.now ≤ MOST_STATES }
    ensures { IfOk result (λ built. AreBuilt ground.entry.net.now ground.entry.states.now
        ground.entry.goal.0 ways.items built.arcs.items built.sources.items) }
{
    way_arcs(alloc, ground, ways.as_slice())
}

// The arcs of these ways.
fn way_arcs(alloc: Global, ground: Ground<'_>, ways: &[Way]) -> Result<StateArcs, OutOfMemory>
    requires sound { All (IsSoundWay (setting_of ground.net.now) ground.rule ground.states.now)
        ways.now }
    requires rest { ground.rule.rest ≤ DAY_MINUTES }
    requires small { length ground.states.now ≤ MOST_STATES }
    ensures { IfOk result (λ built. AreBuilt ground.entry.net.now ground.entry.states.now
        ground.entry.goal.0 ways.now built.arcs.items built.sources.items) }
{
    let mut built = StateArcs {
        arcs: Vec::new(alloc),
        sources: Vec::new(alloc),
    };
    for way in ways {
        push_way(ground, &mut built, *way)?;
    }
    Ok(built)
}

// The park of each state's node, and none for the node behind all states.
fn state_parks(
    alloc: Global,
    net: &TimedNet,
    states: &[State],
) -> Result<Vec<Option<Park>>, OutOfMemory>
    ensures { IfOk result (λ out. out.items
        ≡ map (λ st. park_at net.now st.node.0) states.now ++ None ∷ []) }
{
    let mut out = Vec::with_capacity(alloc, states.len() + 1)?;
    for state in states {
        out.push(net.park(state.node))?;
    }
    out.push(None)?;
    Ok(out)
}

/// The net with these arcs over states. Linear in the states and in the runs of the net.
pub fn state_net(
    alloc: Global,
    net: &TimedNet,
    states: &[State],
    arcs: Vec<TimedArc>,
) -> Result<TimedNet, OutOfMemory>
    requires small { length states.now ≤ MOST_STATES }
    requires good { IsGoodNet (net_over net.now states.now arcs.items) }
    ensures { IfOk result (λ made. made ≡ net_over net.now states.now arcs.items) }
{
    let closed = copied_lists(alloc, net.closed_lists())?;
    let parks = state_parks(alloc, net, states)?;
    Ok(TimedNet::new(states.len() as u32 + 1, arcs, closed, parks))
}
