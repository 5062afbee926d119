// All states, and the ways between them.
ghost use Rattle.std.specs.Prelude.{◌≡◌, ◌≢◌, ◌+◌, ◌≤◌, ◌<◌, Err, Some, [], length, AllPairs, OnOk, IfOk};
ghost use Rattle.drive_states.specs.Words.{setting_of, at_number, EndsAt, AreOutgoing, arcs_of, drives_over};
ghost use Rattle.drive_states.specs.Words.{IsExploring, Reaches, TakesLeg, OverflowsAt, IsExplored, IsStart};
ghost use Rattle.drive_states.specs.Words.{HasTooManyStates};
ghost use Rattle.drive_states.specs.declared.rule.BreakFault.TheVariants.{TooManyStates};
ghost use Rattle.front_transport.specs.declared.limits.TheConstants.{MOST_STATES};
ghost use Rattle.node_arcs.specs.declared.links.End.TheVariants.{Tail};
ghost use Rattle.route_base.specs.declared.limits.TheConstants.{DAY_MINUTES};
ghost use Rattle.route_base.specs.declared.types.Leg.TheVariants.{Drive, Wait};

use crate::rule::{State, Way};
use crate::states::States;
use crate::{BreakFault, BreakRule};
use front_transport::MOST_STATES;
use node_arcs::NodeArcs;
use route_base::{ArcId, Leg, NodeId, OutOfMemory, TimedNet};
use std::alloc::Global;

/// A net with its arcs by tail, and the rule and the origin of a trip over it.
#[derive(Clone, Copy)]
pub struct Plan<'a> {
    pub net: &'a TimedNet,
    pub outgoing: &'a NodeArcs,
    pub origin: NodeId,
    pub rule: BreakRule,
}

// Adds the state, if it is new, and a way to it.
fn reach(
    states: &mut States,
    ways: &mut Vec<Way>,
    from: u32,
    to: State,
    leg: Leg,
) -> Result<(), BreakFault>
    requires driven { to.driven ≤ DAY_MINUTES }
    requires small { length states.old + length ways.old.items ≤ MOST_STATES }
    ensures reached { OnOk result
        (Reaches states.old states.new ways.old.items ways.new.items from to leg) }
    ensures small { OnOk result (length states.new + length ways.new.items ≤ MOST_STATES) }
    ensures many { result ≡ Err TooManyStates
        → Reaches states.old states.new ways.old.items ways.new.items from to leg
        × (MOST_STATES < length states.new + length ways.new.items)
        × AllPairs (λ x y. x ≢ y) states.new }
{
    let number = match states.number_of(to) {
        Ok(number) => number,
        Err(_) => return Err(BreakFault::OutOfMemory),
    };
    let way = Way {
        from,
        to: number,
        leg,
    };
    if ways.push(way).is_err() {
        return Err(BreakFault::OutOfMemory);
    }
    if states.len() + ways.len() > MOST_STATES as usize {
        return Err(BreakFault::TooManyStates);
    }
    Ok(())
}

// Takes the arc from a state, where that is within the rule.
fn drive_over(
    plan: Plan<'_>,
    states: &mut States,
    ways: &mut Vec<Way>,
    n: u32,
    from: State,
    a: ArcId,
) -> Result<(), BreakFault>
    requires tail { EndsAt plan.net.now Tail from.node.0 a.0 }
    requires drive { plan.rule.drive ≤ DAY_MINUTES }
    requires small { length states.old + length ways.old.items ≤ MOST_STATES }
    ensures took { OnOk result (TakesLeg (setting_of plan.entry.net.now) plan.entry.rule
        states.old states.new ways.old.items ways.new.items n from (Drive a)) }
    ensures small { OnOk result (length states.new + length ways.new.items ≤ MOST_STATES) }
    ensures many { result ≡ Err TooManyStates
        → OverflowsAt (setting_of plan.entry.net.now) plan.entry.rule
        states.old states.new ways.old.items ways.new.items n from (Drive a) }
{
    let Some(arc) = plan.net.arc(a) else {
        return Ok(());
    };
    if from.driven > plan.rule.drive || arc.minutes > plan.rule.drive - from.driven {
        return Ok(());
    }
    let to = State {
        node: arc.head,
        driven: from.driven + arc.minutes,
    };
    reach(states, ways, n, to, Leg::Drive(a))
}

// Takes a break at a state, where it is rated and some minutes were driven.
fn rest_at(
    plan: Plan<'_>,
    states: &mut States,
    ways: &mut Vec<Way>,
    n: u32,
    from: State,
) -> Result<(), BreakFault>
    requires low { 1 ≤ from.node.0 }
    requires high { from.node.0 ≤ plan.net.now.nodes }
    requires small { length states.old + length ways.old.items ≤ MOST_STATES }
    ensures took { OnOk result (TakesLeg (setting_of plan.entry.net.now) plan.entry.rule
        states.old states.new ways.old.items ways.new.items n from (Wait plan.entry.rule.rest)) }
    ensures small { OnOk result (length states.new + length ways.new.items ≤ MOST_STATES) }
    ensures many { result ≡ Err TooManyStates
        → OverflowsAt (setting_of plan.entry.net.now) plan.entry.rule
        states.old states.new ways.old.items ways.new.items n from (Wait plan.entry.rule.rest) }
{
    if from.driven == 0 || plan.net.weight(from.node).is_none() {
        return Ok(());
    }
    let to = State {
        node: from.node,
        driven: 0,
    };
    reach(states, ways, n, to, Leg::Wait(plan.rule.rest))
}

// Takes all arcs from a state.
fn drive_on(
    plan: Plan<'_>,
    states: &mut States,
    ways: &mut Vec<Way>,
    n: u32,
    from: State,
) -> Result<(), BreakFault>
    requires outgoing { AreOutgoing plan.net.now plan.outgoing.now }
    requires drive { plan.rule.drive ≤ DAY_MINUTES }
    requires at { at_number states.old n ≡ Some from }
    requires facts { IsExploring (setting_of plan.net.now) plan.origin.0 plan.rule n []
        states.old ways.old.items }
    requires small { length states.old + length ways.old.items ≤ MOST_STATES }
    ensures at { OnOk result (at_number states.new n ≡ Some from) }
    ensures facts { OnOk result (IsExploring (setting_of plan.entry.net.now) plan.entry.origin.0
        plan.entry.rule n (drives_over (arcs_of plan.entry.outgoing.now from.node.0))
        states.new ways.new.items) }
    ensures small { OnOk result (length states.new + length ways.new.items ≤ MOST_STATES) }
    ensures many { result ≡ Err TooManyStates
        → HasTooManyStates (setting_of plan.entry.net.now) plan.entry.origin.0 plan.entry.rule }
{
    for a in plan.outgoing.of(from.node) {
        drive_over(plan, states, ways, n, from, *a)?;
    }
    Ok(())
}

// Takes all arcs from a state, and a break at it.
fn leave(plan: Plan<'_>, states: &mut States, ways: &mut Vec<Way>, n: u32) -> Result<(), BreakFault>
    requires outgoing { AreOutgoing plan.net.now plan.outgoing.now }
    requires drive { plan.rule.drive ≤ DAY_MINUTES }
    requires low { 1 ≤ plan.origin.0 }
    requires high { plan.origin.0 ≤ plan.net.now.nodes }
    requires first { 1 ≤ n }
    requires last { n ≤ length states.old }
    requires facts { IsExploring (setting_of plan.net.now) plan.origin.0 plan.rule n []
        states.old ways.old.items }
    requires small { length states.old + length ways.old.items ≤ MOST_STATES }
    ensures last { OnOk result (n ≤ length states.new) }
    ensures facts { OnOk result (IsExploring (setting_of plan.entry.net.now) plan.entry.origin.0
        plan.entry.rule (n + 1) [] states.new ways.new.items) }
    ensures small { OnOk result (length states.new + length ways.new.items ≤ MOST_STATES) }
    ensures many { result ≡ Err TooManyStates
        → HasTooManyStates (setting_of plan.entry.net.now) plan.entry.origin.0 plan.entry.rule }
{
    let from = states.as_slice()[n as usize - 1];
    drive_on(plan, states, ways, n, from)?;
    let _nodes = plan.net.node_count();
    rest_at(plan, states, ways, n, from)
}

/// The states of a trip, and the ways between them.
#[derive(Drop)]
pub struct Explored {
    pub states: States,
    pub ways: Vec<Way>,
}

// The origin, where nothing was driven.
fn first_states(alloc: Global, origin: NodeId) -> Result<States, OutOfMemory>
    ensures { IfOk result (IsStart origin.0) }
{
    let mut states = States::new(alloc);
    states.number_of(State {
        node: origin,
        driven: 0,
    })?;
    Ok(states)
}

/// All states from the origin on, and all ways between them; `TooManyStates` exactly where they are more than `MOST_STATES`. It takes
/// constant time on average for each state and each arc that leaves its node, and memory for the states and the ways.
pub fn explore(alloc: Global, plan: Plan<'_>) -> Result<Explored, BreakFault>
    requires outgoing { AreOutgoing plan.net.now plan.outgoing.now }
    requires drive { plan.rule.drive ≤ DAY_MINUTES }
    requires low { 1 ≤ plan.origin.0 }
    requires high { plan.origin.0 ≤ plan.net.now.nodes }
    ensures found { IfOk result (λ e. IsExplored (setting_of plan.entry.net.now)
        plan.entry.origin.0 plan.entry.rule e.states e.ways.items) }
    ensures few { IfOk result (λ e.
        HasTooManyStates (setting_of plan.entry.net.now) plan.entry.origin.0 plan.entry.rule → ⊥) }
    ensures many { result ≡ Err TooManyStates
        → HasTooManyStates (setting_of plan.entry.net.now) plan.entry.origin.0 plan.entry.rule }
{
    let mut states = match first_states(alloc, plan.origin) {
        Ok(states) => states,
        Err(_) => return Err(BreakFault::OutOfMemory),
    };
    let mut ways = Vec::new(alloc);
    let mut n: u32 = 1;
    'states: while n as usize <= states.len() {
        leave(plan, &mut states, &mut ways, n)?;
        n += 1;
    }
    Ok(Explored { states, ways })
}
