// Where the cost of a state at a minute comes from.
ghost use Rattle.std.specs.Prelude.{◌≡◌, ◌↔◌, ◌+◌, ◌-◌, ◌<◌, ◌≤◌, ℕ, IsTrue, Some, IfSome, IsNone, slice_get};
ghost use Rattle.node_arcs.specs.Stars.{EndsAt};
ghost use Rattle.node_arcs.specs.declared.links.End.TheVariants.{Head};
ghost use Rattle.route_base.specs.Net.{at_number};
ghost use Rattle.ruled_states.specs.Inside.Codes.{base};
ghost use Rattle.ruled_states.specs.Inside.Tables.{code_of};
ghost use Rattle.ruled_states.specs.declared.table.Info.{Info};
ghost use Rattle.ruled_search.specs.Inside.Sources.{AreNumbered, ComesFirst, ComesFrom, HasNoRoad, HasNoWait, HasSource, IsFirstRest, IsKnownSpot, IsLeastAt, IsLesser, IsSolved, IsSpotIf, IsWaitLeg, led_to};
ghost use Rattle.ruled_search.specs.Inside.Tasks.{task_of, progress_of};
ghost use Rattle.ruled_search.specs.declared.routes.RuledLeg.TheVariants.{Drive, Rest, Serve};

use crate::progress::Progress;
use crate::routes::RuledLeg;
use crate::task::Task;
use crate::ways::Kind;
use cost_functions::Piece;
use node_arcs::NodeArcs;
use route_base::{ArcId, Cost, Minute, NodeId, Run, TimedNet};
use ruled_states::{Info, Place, Ruler, Service};

/// A state by its number, a minute, and the cost there.
#[derive(Clone, Copy)]
pub struct Spot {
    pub number: u32,
    pub info: Info,
    pub minute: Minute,
    pub cost: Cost,
}

/// A leg, and the spot from which it leads.
#[derive(Clone, Copy)]
pub struct Source {
    pub leg: RuledLeg,
    pub from: Spot,
}

// The leg by which exactly the known cost of the spot comes. A wait in the same state is first, then the rest from the least state, then the
// drive over the arc of the smallest number, from the least state, and then a service.
pub fn source_of<R: Ruler + Copy>(
    task: Task<'_, R>,
    incoming: &NodeArcs,
    progress: &Progress,
    spot: Spot,
) -> Source
    requires solved { IsSolved R R.ruling task incoming.now progress.now }
    requires spot { at_number progress.now.table.infos spot.number ≡ Some spot.info }
    requires upto { spot.minute ≤ task.request.until }
    requires comes { HasSource (task_of R R.ruling task) (progress_of progress.now).cost spot }
    ensures { ComesFirst (task_of R R.ruling task.entry) progress.now.table.infos
        (progress_of progress.now).cost spot result }
{
    if let Some(source) = wait_into(task, incoming, progress, spot) {
        return source;
    }
    if let Some(source) = rest_into(task, incoming, progress, spot) {
        return source;
    }
    for a in incoming.of(spot.info.node) {
        if let Some(source) = drive_into(task, incoming, progress, spot, *a) {
            return source;
        }
    }
    for place in 0..task.ruler.service_count() {
        if let Some(source) = service_into(task, incoming, progress, spot, place) {
            return source;
        }
    }
    unreachable!()
}

// The spot of a state at a minute, where it has exactly this cost.
#[inline(always)]
pub fn spot_at(progress: &Progress, number: u32, minute: Minute, cost: Cost) -> Option<Spot>
    requires numbered { AreNumbered progress.now }
    ensures some { IfSome result (IsKnownSpot progress.now.table.infos
        (progress_of progress.now).cost number minute cost) }
    ensures none { IsNone result → (info : Info)
        → at_number progress.now.table.infos number ≡ Some info
        → (progress_of progress.now).cost (code_of info) minute ≡ Some cost → ⊥ }
{
    let info = progress.table.info(number)?;
    let known = progress.functions[number as usize - 1].at(minute)?;
    if known != cost {
        return None;
    }
    Some(Spot {
        number,
        info,
        minute,
        cost,
    })
}

// Of two spots that may be missing, the one whose state has the smaller number of the ruler; else the first.
#[inline(always)]
pub fn lesser(first: Option<Spot>, second: Option<Spot>) -> Option<Spot>
    ensures { IsLesser first second result }
{
    match (first, second) {
        (Some(one), Some(other)) if other.info.state < one.info.state => second,
        (None, _) => second,
        _ => first,
    }
}

// The state after a way of this kind and length; none where it is forbidden.
#[inline(always)]
fn state_after<R: Ruler + Copy>(ruler: &R, kind: Kind, minutes: u64, state: u64) -> Option<u64>
    ensures { result ≡ led_to (R.ruling ruler.now) kind minutes state }
{
    match kind {
        Kind::Drive(_) => ruler.drive(state, minutes),
        Kind::Rest(_) => Some(ruler.rest(state, minutes)),
        Kind::Serve(place) => ruler.serve(state, place),
    }
}

// The spot of a state's place from which a way of this kind and length, at this cost, leads to exactly the known cost of the spot.
#[inline(always)]
fn spot_before<R: Ruler + Copy>(
    ruler: &R,
    progress: &Progress,
    place: Place,
    kind: Kind,
    minutes: u64,
    paid: Cost,
    spot: Spot,
) -> Option<Spot>
    requires numbered { AreNumbered progress.now }
    requires early { minutes ≤ spot.minute }
    requires cheap { paid ≤ spot.cost }
    ensures { IsSpotIf progress.now.table.infos (progress_of progress.now).cost place.number
        (spot.minute - minutes) (spot.cost - paid)
        (led_to (R.ruling ruler.now) kind minutes place.state ≡ Some spot.info.state) result }
{
    if state_after(ruler, kind, minutes, place.state) != Some(spot.info.state) {
        return None;
    }
    spot_at(
        progress,
        place.number,
        spot.minute - minutes,
        spot.cost - paid,
    )
}

// The least state of a node from which a way of this kind and length, at this cost, leads to exactly the known cost of the spot.
fn least_into<R: Ruler + Copy>(
    ruler: &R,
    progress: &Progress,
    node: NodeId,
    kind: Kind,
    minutes: u64,
    paid: Cost,
    spot: Spot,
) -> Option<Spot>
    requires numbered { AreNumbered progress.now }
    requires node { node.0 < base }
    requires early { minutes ≤ spot.minute }
    requires cheap { paid ≤ spot.cost }
    ensures { IsLeastAt progress.now.table.infos (progress_of progress.now).cost node.0
        (spot.minute - minutes) (spot.cost - paid)
        (λ k. led_to (R.ruling ruler.now) kind minutes k ≡ Some spot.info.state) result }
{
    let mut least = None;
    for place in progress.table.places(node) {
        let from = spot_before(ruler, progress, *place, kind, minutes, paid, spot);
        least = lesser(least, from);
    }
    least
}

// The wait in the same state by which the cost comes, where one does: from the first minute of the piece on, or from the last minute before
// which it is shut, or else of one minute.
fn wait_into<R: Ruler + Copy>(
    task: Task<'_, R>,
    incoming: &NodeArcs,
    progress: &Progress,
    spot: Spot,
) -> Option<Source>
    requires solved { IsSolved R R.ruling task incoming.now progress.now }
    requires spot { at_number progress.now.table.infos spot.number ≡ Some spot.info }
    requires upto { spot.minute ≤ task.request.until }
    ensures some { IfSome result (ComesFrom (task_of R R.ruling task.entry)
        progress.now.table.infos (progress_of progress.now).cost spot) }
    ensures leg { IfSome result (λ source. IsWaitLeg source.leg) }
    ensures none { IsNone result → HasNoWait (task_of R R.ruling task.entry)
        (progress_of progress.now).cost spot }
{
    if spot.minute == 0 {
        return None;
    }
    let last = wait_since(task, incoming, progress, spot, spot.minute - 1)?;
    let pieces = progress.functions[spot.number as usize - 1].pieces();
    let open = open_since(task.net, spot.info.node, spot.minute);
    let since = begins_at(pieces, spot.minute).max(open);
    match wait_since(task, incoming, progress, spot, since) {
        Some(source) => Some(source),
        None => Some(last),
    }
}

// A wait since an earlier minute in the same state, where it ends here at exactly this cost.
fn wait_since<R: Ruler + Copy>(
    task: Task<'_, R>,
    incoming: &NodeArcs,
    progress: &Progress,
    spot: Spot,
    since: Minute,
) -> Option<Source>
    requires solved { IsSolved R R.ruling task incoming.now progress.now }
    requires spot { at_number progress.now.table.infos spot.number ≡ Some spot.info }
    requires upto { spot.minute ≤ task.request.until }
    ensures some { IfSome result (ComesFrom (task_of R R.ruling task.entry)
        progress.now.table.infos (progress_of progress.now).cost spot) }
    ensures leg { IfSome result (λ source. IsWaitLeg source.leg) }
    ensures none { IsNone result → since + 1 ≡ spot.minute → HasNoWait
        (task_of R R.ruling task.entry) (progress_of progress.now).cost spot }
{
    if since >= spot.minute {
        return None;
    }
    let park = task.net.park(spot.info.node)?;
    let minutes = spot.minute - since;
    let paid = park.weight * minutes;
    if paid > spot.cost {
        return None;
    }
    let from = spot_at(progress, spot.number, since, spot.cost - paid)?;
    if !task.net.is_wait_open(spot.info.node, since, minutes) {
        return None;
    }
    Some(Source {
        leg: RuledLeg::Wait(minutes),
        from,
    })
}

// The first minute of the last piece that begins by a minute.
fn begins_at(pieces: &[Piece], t: Minute) -> Minute {
    let count = pieces.partition_point(|piece| piece.lo <= t);
    match pieces[..count].last() {
        Some(piece) => piece.lo,
        None => t,
    }
}

// The first minute since when waiting at the node has not been shut until a minute.
fn open_since(net: &TimedNet, node: NodeId, t: Minute) -> Minute {
    match net.park(node) {
        Some(_) => end_before(net.shut_runs(node), t),
        None => t,
    }
}

// The end of the last run that begins before a minute.
fn end_before(runs: &[Run], t: Minute) -> Minute {
    let count = runs.partition_point(|run| run.lo < t);
    match runs[..count].last() {
        Some(run) => run.hi,
        None => 0,
    }
}

// The rest by which the cost comes, where one does: from the least state for the first place of the ruler's list.
fn rest_into<R: Ruler + Copy>(
    task: Task<'_, R>,
    incoming: &NodeArcs,
    progress: &Progress,
    spot: Spot,
) -> Option<Source>
    requires solved { IsSolved R R.ruling task incoming.now progress.now }
    requires spot { at_number progress.now.table.infos spot.number ≡ Some spot.info }
    requires upto { spot.minute ≤ task.request.until }
    ensures some { IfSome result (ComesFrom (task_of R R.ruling task.entry)
        progress.now.table.infos (progress_of progress.now).cost spot) }
    ensures leg { IfSome result (λ source. IsFirstRest (task_of R R.ruling task.entry)
        (progress_of progress.now).cost spot source.leg) }
    ensures none { IsNone result → (place : ℕ) → HasNoRoad (task_of R R.ruling task.entry)
        (progress_of progress.now).cost spot 1 place }
{
    let rests = task.ruler.rests();
    for place in 0..rests.len() {
        if let Some(source) = rested_into(
            task,
            incoming,
            progress,
            spot,
            place as u64,
            rests[place],
        ) {
            return Some(source);
        }
    }
    None
}

// The rest at a place of the ruler's list, from the least state, that ends here at exactly this cost.
fn rested_into<R: Ruler + Copy>(
    task: Task<'_, R>,
    incoming: &NodeArcs,
    progress: &Progress,
    spot: Spot,
    place: u64,
    rest: u64,
) -> Option<Source>
    requires solved { IsSolved R R.ruling task incoming.now progress.now }
    requires spot { at_number progress.now.table.infos spot.number ≡ Some spot.info }
    requires upto { spot.minute ≤ task.request.until }
    requires rest { slice_get (R.ruling task.ruler.now).rests place ≡ Some rest }
    ensures some { IfSome result (ComesFrom (task_of R R.ruling task.entry)
        progress.now.table.infos (progress_of progress.now).cost spot) }
    ensures leg { IfSome result (λ source. source.leg ≡ Rest place) }
    ensures none { IsNone result → HasNoRoad (task_of R R.ruling task.entry)
        (progress_of progress.now).cost spot 1 place }
{
    let node = spot.info.node;
    let park = task.net.park(node)?;
    if rest > spot.minute {
        return None;
    }
    let paid = rest * park.weight;
    if paid > spot.cost {
        return None;
    }
    if !task.net.is_wait_open(node, spot.minute - rest, rest) {
        return None;
    }
    let from = least_into(
        task.ruler,
        progress,
        node,
        Kind::Rest(place),
        rest,
        paid,
        spot,
    )?;
    Some(Source {
        leg: RuledLeg::Rest(place),
        from,
    })
}

// The drive over the arc, from the least state, that ends here at exactly this cost.
fn drive_into<R: Ruler + Copy>(
    task: Task<'_, R>,
    incoming: &NodeArcs,
    progress: &Progress,
    spot: Spot,
    a: ArcId,
) -> Option<Source>
    requires solved { IsSolved R R.ruling task incoming.now progress.now }
    requires spot { at_number progress.now.table.infos spot.number ≡ Some spot.info }
    requires upto { spot.minute ≤ task.request.until }
    requires ends { EndsAt task.net.now Head spot.info.node.0 a.0 }
    ensures some { IfSome result (ComesFrom (task_of R R.ruling task.entry)
        progress.now.table.infos (progress_of progress.now).cost spot) }
    ensures leg { IfSome result (λ source. source.leg ≡ Drive a) }
    ensures none { IsNone result → HasNoRoad (task_of R R.ruling task.entry)
        (progress_of progress.now).cost spot 0 a.0 }
{
    let arc = task.net.arc(a)?;
    if arc.minutes > spot.minute || arc.cost > spot.cost {
        return None;
    }
    if !task.net.is_open(a, spot.minute - arc.minutes, arc.minutes) {
        return None;
    }
    let from = least_into(
        task.ruler,
        progress,
        arc.tail,
        Kind::Drive(a),
        arc.minutes,
        arc.cost,
        spot,
    )?;
    Some(Source {
        leg: RuledLeg::Drive(a),
        from,
    })
}

// The service at a place, from the least state, that ends here at exactly this cost.
fn service_into<R: Ruler + Copy>(
    task: Task<'_, R>,
    incoming: &NodeArcs,
    progress: &Progress,
    spot: Spot,
    place: u64,
) -> Option<Source>
    requires solved { IsSolved R R.ruling task incoming.now progress.now }
    requires spot { at_number progress.now.table.infos spot.number ≡ Some spot.info }
    requires upto { spot.minute ≤ task.request.until }
    ensures some { IfSome result (ComesFrom (task_of R R.ruling task.entry)
        progress.now.table.infos (progress_of progress.now).cost spot) }
    ensures leg { IfSome result (λ source. source.leg ≡ Serve place) }
    ensures none { IsNone result → HasNoRoad (task_of R R.ruling task.entry)
        (progress_of progress.now).cost spot 2 place }
{
    let service = task.ruler.service(place)?;
    let node = spot.info.node;
    if service.node.0 != node.0 {
        return None;
    }
    if !is_within(service, spot.minute) {
        return None;
    }
    let from = least_into(
        task.ruler,
        progress,
        node,
        Kind::Serve(place),
        service.minutes,
        0,
        spot,
    )?;
    Some(Source {
        leg: RuledLeg::Serve(place),
        from,
    })
}

// Whether the service can end at a minute.
fn is_within(service: Service, end: Minute) -> bool
    ensures { IsTrue result ↔ ((service.minutes ≤ end) × (service.from + service.minutes ≤ end)
        × (end ≤ service.to)) }
{
    end >= service.minutes && end - service.minutes >= service.from && end <= service.to
}
