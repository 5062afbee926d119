// Ways: roads over states, made of an arc, a rest or a service in a state.
ghost use Rattle.std.specs.Prelude.{◌≡◌, ◌≤◌, Some, IfSome, IsNone, slice_get};
ghost use Rattle.node_arcs.specs.Stars.{EndsAt};
ghost use Rattle.node_arcs.specs.declared.links.End.TheVariants.{Tail};
ghost use Rattle.route_base.specs.Net.{park_at, IsGoodPark};
ghost use Rattle.state_dominance.specs.Inside.Product.{code, road_code};
ghost use Rattle.ruled_states.specs.Inside.Codes.{base};
ghost use Rattle.ruled_search.specs.Inside.Tasks.{task_of, IsGoodTask, IsBarred};
ghost use Rattle.ruled_search.specs.Inside.Ways.{IsWay, road_in};

use crate::bounds::bound_at;
use crate::task::Task;
use route_base::limits::HIGHEST_COST;
use route_base::{ArcId, Bound, Cost, NodeId, Park};
use ruled_states::Ruler;

/// The kind of a way: a drive over an arc, or the rest or the service at a place of the ruler's lists.
#[derive(Clone, Copy)]
pub enum Kind {
    Drive(ArcId),
    Rest(u64),
    Serve(u64),
}

/// A road over states: its kind, the state in which it begins and the one to which it leads, its minutes and cost, the bound behind it, and
/// the place in the net of the runs in which it is shut; of no meaning for a service.
#[derive(Clone, Copy)]
pub struct Way {
    pub kind: Kind,
    pub tail: NodeId,
    pub before: u64,
    pub head: NodeId,
    pub after: u64,
    pub minutes: u64,
    pub cost: Cost,
    pub bound: Bound,
    pub list: u32,
}

// The drive over an arc in a state; none where it is forbidden or leads nowhere. (`road_by` of kind 0 by `IsGoodArc`; where there is no
// bound, each end is prunable.)
#[inline(always)]
pub fn drive_way<R: Ruler + Copy>(
    task: Task<'_, R>,
    a: ArcId,
    node: NodeId,
    state: u64,
) -> Option<Way>
    requires asked { IsGoodTask R R.ruling task }
    requires begins { EndsAt task.net.now Tail node.0 a.0 }
    ensures way { IfSome result (IsWay R R.ruling task.entry) }
    ensures road { IfSome result (λ way. road_in way ≡ road_code base 0 a.0 node.0 state) }
    ensures tail { IfSome result (λ way. (way.tail ≡ node) × (way.before ≡ state)) }
    ensures barred { IsNone result → IsBarred (task_of R R.ruling task.entry)
        (code base node.0 state) (road_code base 0 a.0 node.0 state) }
{
    let arc = task.net.arc(a)?;
    let after = task.ruler.drive(state, arc.minutes)?;
    let bound = bound_at(task.bounds, task.ruler, arc.head, after)?;
    Some(Way {
        kind: Kind::Drive(a),
        tail: node,
        before: state,
        head: arc.head,
        after,
        minutes: arc.minutes,
        cost: arc.cost,
        bound,
        list: arc.closed,
    })
}

// The rest at a place of the ruler's list, at a node in a state; none where it is too long or leads nowhere. A rest that costs more than
// any walk is barred, since what is reached fits (`CostsFit` of the product).
#[inline(always)]
pub fn rest_way<R: Ruler + Copy>(
    task: Task<'_, R>,
    place: u64,
    rest: u64,
    node: NodeId,
    park: Park,
    state: u64,
) -> Option<Way>
    requires asked { IsGoodTask R R.ruling task }
    requires low { 1 ≤ node.0 }
    requires high { node.0 ≤ task.net.now.nodes }
    requires park { park_at task.net.now node.0 ≡ Some park }
    requires good { IsGoodPark task.net.now park }
    requires rest { slice_get (R.ruling task.ruler.now).rests place ≡ Some rest }
    ensures way { IfSome result (IsWay R R.ruling task.entry) }
    ensures road { IfSome result (λ way. road_in way ≡ road_code base 1 place node.0 state) }
    ensures tail { IfSome result (λ way. (way.tail ≡ node) × (way.before ≡ state)) }
    ensures barred { IsNone result → IsBarred (task_of R R.ruling task.entry)
        (code base node.0 state) (road_code base 1 place node.0 state) }
{
    if rest > task.request.until {
        return None;
    }
    let cost = rest * park.weight;
    if cost > HIGHEST_COST {
        return None;
    }
    let after = task.ruler.rest(state, rest);
    let bound = bound_at(task.bounds, task.ruler, node, after)?;
    Some(Way {
        kind: Kind::Rest(place),
        tail: node,
        before: state,
        head: node,
        after,
        minutes: rest,
        cost,
        bound,
        list: park.shut,
    })
}

// The service at a place of the ruler's list, in a state of a node; none where it is elsewhere, is forbidden, is too long or leads nowhere.
#[inline(always)]
pub fn service_way<R: Ruler + Copy>(
    task: Task<'_, R>,
    place: u64,
    node: NodeId,
    state: u64,
) -> Option<Way>
    requires asked { IsGoodTask R R.ruling task }
    requires low { 1 ≤ node.0 }
    requires high { node.0 ≤ task.net.now.nodes }
    ensures way { IfSome result (IsWay R R.ruling task.entry) }
    ensures road { IfSome result (λ way. road_in way ≡ road_code base 2 place node.0 state) }
    ensures tail { IfSome result (λ way. (way.tail ≡ node) × (way.before ≡ state)) }
    ensures barred { IsNone result → IsBarred (task_of R R.ruling task.entry)
        (code base node.0 state) (road_code base 2 place node.0 state) }
{
    let service = task.ruler.service(place)?;
    if service.node.0 != node.0 {
        return None;
    }
    if service.minutes > task.request.until {
        return None;
    }
    let after = task.ruler.serve(state, place)?;
    let bound = bound_at(task.bounds, task.ruler, node, after)?;
    Some(Way {
        kind: Kind::Serve(place),
        tail: node,
        before: state,
        head: node,
        after,
        minutes: service.minutes,
        cost: 0,
        bound,
        list: 0,
    })
}
