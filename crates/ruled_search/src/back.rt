// Back from the pairs to the start.
ghost use Rattle.std.specs.Prelude.{◌≡◌, ◌↔◌, ◌<◌, true, IsTrue, Contains, IfOk};
ghost use Rattle.state_dominance.specs.Inside.Dominance.{IsStart};
ghost use Rattle.ruled_states.specs.Inside.Codes.{base};
ghost use Rattle.ruled_search.specs.Inside.Sources.{AreNumbered, IsSolved, IsEndOf, IsSpotIf, place_of};
ghost use Rattle.ruled_search.specs.Inside.Tasks.{task_of, progress_of};
ghost use Rattle.ruled_search.specs.Routes.{AreRoutesOf, IsFirstRuled};

use crate::progress::Progress;
use crate::routes::{RuledLeg, RuledRoute};
use crate::sources::{Spot, lesser, source_of, spot_at};
use crate::task::Task;
use node_arcs::NodeArcs;
use route_base::{OutOfMemory, Pair};
use ruled_states::{Place, Ruler};
use std::alloc::Global;

// The routes of all pairs, in their order, each the first of its pair.
pub fn routes_of<R: Ruler + Copy>(
    alloc: Global,
    task: Task<'_, R>,
    incoming: &NodeArcs,
    progress: &Progress,
) -> Result<Vec<RuledRoute>, OutOfMemory>
    requires solved { IsSolved R R.ruling task incoming.now progress.now }
    ensures { IfOk result (λ routes. AreRoutesOf (task_of R R.ruling task.entry) base
        progress.now.pairs.items routes.items) }
{
    let mut routes = Vec::new(alloc);
    for pair in progress.pairs.as_slice() {
        let legs = legs_of(alloc, task, incoming, progress, *pair)?;
        routes.push(RuledRoute { pair: *pair, legs })?;
    }
    Ok(routes)
}

// The legs of the first route of a pair.
fn legs_of<R: Ruler + Copy>(
    alloc: Global,
    task: Task<'_, R>,
    incoming: &NodeArcs,
    progress: &Progress,
    pair: Pair,
) -> Result<Vec<RuledLeg>, OutOfMemory>
    requires solved { IsSolved R R.ruling task incoming.now progress.now }
    requires one { Contains progress.now.pairs.items pair }
    ensures { IfOk result (λ legs. IsFirstRuled (task_of R R.ruling task.entry) base (record {
      pair = pair;
      legs = legs;
    })) }
{
    let mut legs = Vec::new(alloc);
    let mut spot = end_of(task, incoming, progress, pair);
    'back: while !is_start(task, spot) {
        let source = source_of(task, incoming, progress, spot);
        legs.push(source.leg)?;
        spot = source.from;
    }
    legs.reverse();
    Ok(legs)
}

// Whether the spot is the state and the minute of the start.
fn is_start<R: Ruler + Copy>(task: Task<'_, R>, spot: Spot) -> bool
    requires node { spot.info.node.0 < base }
    requires origin { task.request.origin.0 < base }
    ensures { IsTrue result ↔ IsStart (task_of R R.ruling task.entry) (place_of spot) }
{
    spot.minute == task.request.depart
        && spot.info.node == task.request.origin
        && spot.info.state == task.ruler.first()
}

// The least state in which a trip may end at the goal that has the pair's cost at its arrival.
fn end_of<R: Ruler + Copy>(
    task: Task<'_, R>,
    incoming: &NodeArcs,
    progress: &Progress,
    pair: Pair,
) -> Spot
    requires solved { IsSolved R R.ruling task incoming.now progress.now }
    requires one { Contains progress.now.pairs.items pair }
    ensures { IsEndOf (task_of R R.ruling task.entry) progress.now.table.infos
        (progress_of progress.now).cost pair result }
{
    let mut least = None;
    for place in progress.table.places(task.request.goal) {
        let end = end_at(task, progress, *place, pair);
        least = lesser(least, end);
    }
    match least {
        Some(spot) => spot,
        None => unreachable!(),
    }
}

// The spot of a state's place at the pair's arrival, where a trip may end in the state and it has the pair's cost.
fn end_at<R: Ruler + Copy>(
    task: Task<'_, R>,
    progress: &Progress,
    place: Place,
    pair: Pair,
) -> Option<Spot>
    requires numbered { AreNumbered progress.now }
    ensures { IsSpotIf progress.now.table.infos (progress_of progress.now).cost place.number
        pair.arrival pair.cost ((R.ruling task.entry.ruler.now).ends place.state ≡ true) result }
{
    if !task.ruler.ends(place.state) {
        return None;
    }
    spot_at(progress, place.number, pair.arrival, pair.cost)
}
