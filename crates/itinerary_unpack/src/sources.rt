// Where the cost of a node at a minute comes from.
ghost use Rattle.std.specs.Prelude.{◌≡◌, ◌+◌, ◌≤◌, IfSome, IsNone};
ghost use Rattle.node_arcs.specs.Stars.{EndsAt};
ghost use Rattle.node_arcs.specs.declared.links.End.TheVariants.{Head};
ghost use Rattle.route_base.specs.Itinerary.{drive, wait};
ghost use Rattle.route_base.specs.declared.types.Leg.TheVariants.{Drive};
ghost use Rattle.route_base.specs.StepsBack.{HasSource, HasNoMove};
ghost use Rattle.propagation.specs.Inside.Invariants.{point};
ghost use Rattle.itinerary_unpack.specs.Inside.Sources.{ComesFrom, ComesFirst};
ghost use Rattle.itinerary_unpack.specs.Inside.Requests.{IsSolved, IsSolvedAt, setting_in, solved_cost};

use crate::solved::Solved;
use cost_functions::Piece;
use route_base::{ArcId, Cost, Leg, Minute, NodeId, Run, TimedNet};

/// The node and minute at which a leg begins, and the leg.
#[derive(Clone, Copy)]
pub struct Source {
    pub leg: Leg,
    pub node: NodeId,
    pub minute: Minute,
}

// The leg by which the cost of the node at this minute comes: a wait where one does, else the drive over the arc of the smallest
// number.
pub fn source_of(solved: Solved<'_>, v: NodeId, t: Minute, x: Cost) -> Source
    requires solved { IsSolved solved }
    requires low { 1 ≤ v.0 }
    requires high { v.0 ≤ solved.net.now.nodes }
    requires upto { t ≤ solved.request.until }
    requires comes { HasSource (setting_in solved) solved.request.until (solved_cost solved)
        (point v.0 t x) }
    ensures { ComesFirst (setting_in solved.entry) solved.entry.request.until
        (solved_cost solved.entry) v.0 t x result }
{
    if let Some(source) = wait_into(solved, v, t, x) {
        return source;
    }
    for a in solved.incoming.of(v) {
        if let Some(source) = drive_into(solved, *a, v, t, x) {
            return source;
        }
    }
    unreachable!()
}

// The start of a drive over the arc that ends here at exactly this cost.
fn drive_into(solved: Solved<'_>, a: ArcId, v: NodeId, t: Minute, x: Cost) -> Option<Source>
    requires solved { IsSolved solved }
    requires ends { EndsAt solved.net.now Head v.0 a.0 }
    requires upto { t ≤ solved.request.until }
    ensures leg { IfSome result (λ from. from.leg ≡ Drive a) }
    ensures some { IfSome result (ComesFrom (setting_in solved.entry)
        solved.entry.request.until (solved_cost solved.entry) v.0 t x) }
    ensures none { IsNone result → HasNoMove (setting_in solved.entry)
        solved.entry.request.until (solved_cost solved.entry) (drive a.0) (point v.0 t x) }
{
    let arc = solved.net.arc(a)?;
    if arc.minutes > t {
        return None;
    }
    let minute = t - arc.minutes;
    let before = solved.found.function(arc.tail).at(minute)?;
    if before + arc.cost != x {
        return None;
    }
    if !solved.net.is_open(a, minute, arc.minutes) {
        return None;
    }
    Some(Source {
        leg: Leg::Drive(a),
        node: arc.tail,
        minute,
    })
}

// The wait by which the cost comes, where one does: from the first minute of the piece on, or from the last minute before which it is
// shut, or else of one minute.
fn wait_into(solved: Solved<'_>, v: NodeId, t: Minute, x: Cost) -> Option<Source>
    requires { IsSolvedAt solved v.0 t }
    ensures some { IfSome result (ComesFirst (setting_in solved.entry)
        solved.entry.request.until (solved_cost solved.entry) v.0 t x) }
    ensures none { IsNone result → HasNoMove (setting_in solved.entry)
        solved.entry.request.until (solved_cost solved.entry) wait (point v.0 t x) }
{
    if t == 0 {
        return None;
    }
    let last = wait_since(solved, v, t - 1, t, x)?;
    let since = begins_at(solved.found.function(v).pieces(), t).max(open_since(solved.net, v, t));
    match wait_since(solved, v, since, t, x) {
        Some(source) => Some(source),
        None => Some(last),
    }
}

// The first minute of the last piece that begins by a minute.
fn begins_at(pieces: &[Piece], t: Minute) -> Minute {
    let count = pieces.partition_point(|piece| piece.lo <= t);
    match pieces[..count].last() {
        Some(piece) => piece.lo,
        None => t,
    }
}

// The first minute since when waiting at the node has not been shut until a minute.
fn open_since(net: &TimedNet, v: NodeId, t: Minute) -> Minute
    requires low { 1 ≤ v.0 }
    requires high { v.0 ≤ net.now.nodes }
{
    match net.weight(v) {
        Some(_) => end_before(net.shut_runs(v), t),
        None => t,
    }
}

// The end of the last run that begins before a minute.
fn end_before(runs: &[Run], t: Minute) -> Minute {
    let count = runs.partition_point(|run| run.lo < t);
    match runs[..count].last() {
        Some(run) => run.hi,
        None => 0,
    }
}

// A wait since an earlier minute, where it ends here at exactly this cost.
fn wait_since(solved: Solved<'_>, v: NodeId, since: Minute, t: Minute, x: Cost) -> Option<Source>
    requires { IsSolvedAt solved v.0 t }
    ensures some { IfSome result (ComesFirst (setting_in solved.entry)
        solved.entry.request.until (solved_cost solved.entry) v.0 t x) }
    ensures none { IsNone result → since + 1 ≡ t → HasNoMove (setting_in solved.entry)
        solved.entry.request.until (solved_cost solved.entry) wait (point v.0 t x) }
{
    if since >= t {
        return None;
    }
    let weight = solved.net.weight(v)?;
    let before = solved.found.function(v).at(since)?;
    let minutes = t - since;
    if before + weight * minutes != x {
        return None;
    }
    if !solved.net.is_wait_open(v, since, minutes) {
        return None;
    }
    Some(Source {
        leg: Leg::Wait(minutes),
        node: v,
        minute: since,
    })
}
