// The number of states, and of the drives and breaks that leave them, without a list of them.
ghost use Rattle.std.specs.Prelude.{◌≡◌, ◌↔◌, ◌+◌, ◌<◌, ◌≤◌, ◌^◌, Some, [], IfOk, IsTrue, OnOk};
ghost use Rattle.drive_states.specs.Words.{setting_of, EndsAt, AreOutgoing, arcs_of, drives_over, row_of};
ghost use Rattle.drive_states.specs.Words.{AreAllMarked, AreQueued, IsOpened, IsPaid, IsVisited, IsVisiting, TakesMarks};
ghost use Rattle.drive_states.specs.Words.{HasTooManyStates, drives_by, drives_in, rests_by, rests_in};
ghost use Rattle.front_transport.specs.declared.limits.TheConstants.{MOST_STATES};
ghost use Rattle.node_arcs.specs.declared.links.End.TheVariants.{Tail};
ghost use Rattle.route_base.specs.Net.{road_of};
ghost use Rattle.route_base.specs.declared.limits.TheConstants.{DAY_MINUTES};
ghost use Rattle.route_base.specs.declared.types.Leg.TheVariants.{Drive, Wait};

use crate::bit_rows::BitRows;
use crate::bits::{count_below, trimmed};
use crate::exploration::Plan;
use crate::marks::{Marks, mark};
use crate::node_queue::NodeQueue;
use front_transport::MOST_STATES;
use route_base::{ArcId, NodeId, OutOfMemory, TimedArc};
use std::alloc::Global;

// A node, and the minutes that were new there when its visit began: those of the row, all later by `first`.
#[derive(Clone, Copy)]
struct Visit<'a> {
    node: NodeId,
    row: &'a [u64],
    first: u64,
}

// Takes an arc of the node.
fn drive_over(
    plan: Plan<'_>,
    visit: Visit<'_>,
    marks: &mut Marks,
    a: ArcId,
) -> Result<(), OutOfMemory>
    requires tail { EndsAt plan.net.now Tail visit.node.0 a.0 }
    requires drive { plan.rule.drive ≤ DAY_MINUTES }
    requires room { marks.old.count < 2 ^ 63 }
    requires early { visit.first ≤ DAY_MINUTES }
    ensures { OnOk result (TakesMarks (setting_of plan.entry.net.now) plan.entry.origin.0
        plan.entry.rule visit.entry.node.0 visit.entry.row.now visit.entry.first (Drive a)
        marks.old marks.new) }
{
    let Some(arc) = plan.net.arc(a) else {
        return Ok(());
    };
    let later = visit.first + arc.minutes;
    mark(marks, arc.head, visit.row, later, plan.rule.drive)
}

// Takes a break at the node, where it is rated.
fn rest_at(plan: Plan<'_>, visit: Visit<'_>, marks: &mut Marks) -> Result<(), OutOfMemory>
    requires low { 1 ≤ visit.node.0 }
    requires high { visit.node.0 ≤ plan.net.now.nodes }
    requires drive { plan.rule.drive ≤ DAY_MINUTES }
    requires room { marks.old.count < 2 ^ 63 }
    ensures { OnOk result (TakesMarks (setting_of plan.entry.net.now) plan.entry.origin.0
        plan.entry.rule visit.entry.node.0 visit.entry.row.now visit.entry.first
        (Wait plan.entry.rule.rest) marks.old marks.new) }
{
    if plan.net.weight(visit.node).is_none() {
        return Ok(());
    }
    mark(marks, visit.node, &[1], 0, plan.rule.drive)
}

// Takes all arcs of the node.
fn drive_on(plan: Plan<'_>, visit: Visit<'_>, marks: &mut Marks) -> Result<(), OutOfMemory>
    requires outgoing { AreOutgoing plan.net.now plan.outgoing.now }
    requires drive { plan.rule.drive ≤ DAY_MINUTES }
    requires low { 1 ≤ plan.origin.0 }
    requires high { plan.origin.0 ≤ plan.net.now.nodes }
    requires early { visit.first ≤ DAY_MINUTES }
    requires facts { IsVisiting (setting_of plan.net.now) plan.origin.0 plan.rule
        visit.node.0 visit.row.now visit.first [] marks.old }
    ensures facts { OnOk result (IsVisiting (setting_of plan.entry.net.now) plan.entry.origin.0
        plan.entry.rule visit.entry.node.0 visit.entry.row.now visit.entry.first
        (drives_over (arcs_of plan.entry.outgoing.now visit.entry.node.0)) marks.new) }
    ensures paid { OnOk result (IsPaid marks.old marks.new) }
{
    let _nodes = plan.net.node_count();
    for a in plan.outgoing.of(visit.node) {
        drive_over(plan, visit, marks, *a)?;
    }
    Ok(())
}

// Takes all arcs of a node that was queued, and a break at it, for its new minutes, which are written into a list.
fn visit_node(
    plan: Plan<'_>,
    marks: &mut Marks,
    fresh: &mut Vec<u64>,
    v: NodeId,
) -> Result<(), OutOfMemory>
    requires outgoing { AreOutgoing plan.net.now plan.outgoing.now }
    requires drive { plan.rule.drive ≤ DAY_MINUTES }
    requires low { 1 ≤ plan.origin.0 }
    requires high { plan.origin.0 ≤ plan.net.now.nodes }
    requires queued { IsOpened (setting_of plan.net.now) plan.origin.0 plan.rule v.0 marks.old }
    ensures { OnOk result (IsVisited (setting_of plan.entry.net.now) plan.entry.origin.0
        plan.entry.rule marks.old marks.new) }
{
    let _nodes = plan.net.node_count();
    marks.done.take(v, marks.rows.row(v), fresh)?;
    let (row, first) = trimmed(fresh.as_slice());
    let visit = Visit {
        node: v,
        row,
        first,
    };
    drive_on(plan, visit, marks)?;
    rest_at(plan, visit, marks)
}

// The origin is marked, where nothing was driven.
fn first_marks(alloc: Global, plan: Plan<'_>) -> Result<Marks, OutOfMemory>
    requires drive { plan.rule.drive ≤ DAY_MINUTES }
    requires high { plan.origin.0 ≤ plan.net.now.nodes }
    ensures { IfOk result (AreQueued (setting_of plan.entry.net.now) plan.entry.origin.0
        plan.entry.rule) }
{
    let mut marks = Marks {
        rows: BitRows::new(alloc),
        done: BitRows::new(alloc),
        queue: NodeQueue::new(alloc, plan.net.node_count() as usize + 1)?,
        count: 0,
    };
    mark(&mut marks, plan.origin, &[1], 0, plan.rule.drive)?;
    Ok(marks)
}

// All states are marked, or more than `MOST_STATES`.
fn mark_all(alloc: Global, plan: Plan<'_>) -> Result<Marks, OutOfMemory>
    requires outgoing { AreOutgoing plan.net.now plan.outgoing.now }
    requires drive { plan.rule.drive ≤ DAY_MINUTES }
    requires low { 1 ≤ plan.origin.0 }
    requires high { plan.origin.0 ≤ plan.net.now.nodes }
    ensures { IfOk result (AreAllMarked (setting_of plan.entry.net.now) plan.entry.origin.0
        plan.entry.rule MOST_STATES) }
{
    let _nodes = plan.net.node_count();
    let mut marks = first_marks(alloc, plan)?;
    let mut fresh = Vec::new(alloc);
    'nodes: while let Some(v) = marks.queue.pop() {
        visit_node(plan, &mut marks, &mut fresh, NodeId(v))?;
        if marks.count > u64::from(MOST_STATES) {
            return Ok(marks);
        }
    }
    Ok(marks)
}

// The marked states from which the arc is within the limit.
fn drives_of(rows: &BitRows, arc: &TimedArc, limit: u64) -> u32
    requires { limit ≤ DAY_MINUTES }
    ensures { result ≡ drives_by rows.now limit (Some (road_of arc.now)) }
{
    let end = (limit + 1).saturating_sub(arc.minutes);
    count_below(rows.row(arc.tail), end as usize)
}

// The drives that leave the marked states.
fn drive_count(plan: Plan<'_>, rows: &BitRows) -> u64
    requires { plan.rule.drive ≤ DAY_MINUTES }
    ensures value { result
        ≡ drives_in (setting_of plan.entry.net.now) rows.now plan.entry.rule.drive }
    ensures few { result < 2 ^ 62 }
{
    let mut count = 0;
    for arc in plan.net.arcs() {
        count += u64::from(drives_of(rows, arc, plan.rule.drive));
    }
    count
}

// The breaks that leave the marked states of a node.
fn rests_of(plan: Plan<'_>, rows: &BitRows, v: NodeId) -> u32
    requires low { 1 ≤ v.0 }
    requires high { v.0 ≤ plan.net.now.nodes }
    requires drive { plan.rule.drive ≤ DAY_MINUTES }
    ensures { result ≡ rests_by rows.now plan.entry.rule.drive v.0
        ((setting_of plan.entry.net.now).weight v.0) }
{
    if plan.net.weight(v).is_none() {
        return 0;
    }
    let row = rows.row(v);
    count_below(row, plan.rule.drive as usize + 1) - count_below(row, 1)
}

// The breaks that leave the marked states.
fn rest_count(plan: Plan<'_>, rows: &BitRows) -> u64
    requires { plan.rule.drive ≤ DAY_MINUTES }
    ensures value { result
        ≡ rests_in (setting_of plan.entry.net.now) rows.now plan.entry.rule.drive }
    ensures few { result < 2 ^ 62 }
{
    let mut count = 0;
    for v in 1..plan.net.node_count() + 1 {
        count += u64::from(rests_of(plan, rows, NodeId(v)));
    }
    count
}

/// Whether the states of a trip, and the drives and breaks that leave them, are more than `MOST_STATES`. It keeps a bit for each minute
/// of the rule at each node that is reached, and one for each whose drives were taken, and no list of states; whenever some bits of a node are
/// new, these are moved over its arcs, until the states alone are more than `MOST_STATES`.
pub fn has_too_many_states(alloc: Global, plan: Plan<'_>) -> Result<bool, OutOfMemory>
    requires outgoing { AreOutgoing plan.net.now plan.outgoing.now }
    requires drive { plan.rule.drive ≤ DAY_MINUTES }
    requires low { 1 ≤ plan.origin.0 }
    requires high { plan.origin.0 ≤ plan.net.now.nodes }
    ensures { IfOk result (λ many. IsTrue many
        ↔ HasTooManyStates (setting_of plan.entry.net.now) plan.entry.origin.0 plan.entry.rule) }
{
    let _nodes = plan.net.node_count();
    let marks = mark_all(alloc, plan)?;
    let count = marks.count + drive_count(plan, &marks.rows) + rest_count(plan, &marks.rows);
    Ok(count > u64::from(MOST_STATES))
}
