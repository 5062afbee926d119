// A way is relaxed: its offer is made and taken.
ghost use Rattle.std.specs.Prelude.{IsTrue, OnOk};
ghost use Rattle.cost_functions.specs.Pieces.{value_at};
ghost use Rattle.propagation.specs.Inside.EntrySets.{AreEntrySets};
ghost use Rattle.state_dominance.specs.Inside.Dominance.{IsSearching};
ghost use Rattle.state_dominance.specs.Inside.Widening.{IsKnownPart};
ghost use Rattle.ruled_states.specs.Inside.Tables.{IsStateOf};
ghost use Rattle.ruled_search.specs.Inside.Tasks.{task_of, progress_of, Improves, IsGoodTask, IsRoadRelaxed, IsShapedFor};
ghost use Rattle.ruled_search.specs.Inside.Ways.{IsWay, road_in, tail_of};

use crate::offers::offered;
use crate::progress::{Progress, Tools};
use crate::taking::take;
use crate::task::Task;
use crate::ways::Way;
use cost_functions::CostFn;
use function_merge::is_shown_no_better;
use route_base::OutOfMemory;
use ruled_states::{Info, Place, Ruler};
use std::alloc::Global;

// Whether the state of the place is no worse than that behind the way, and is shown to cost no more wherever drives of the part end.
#[inline(always)]
fn is_shown_by<R: Ruler + Copy>(
    task: Task<'_, R>,
    progress: &Progress,
    place: Place,
    part: &CostFn,
    way: Way,
) -> bool
    requires asked { IsGoodTask R R.ruling task }
    requires shape { IsShapedFor R R.ruling task 0 progress.now }
    requires way { IsWay R R.ruling task way }
    requires place { IsStateOf progress.now.table.infos way.head.0 place.state place.number }
    ensures { IsTrue result → IsRoadRelaxed (task_of R R.ruling task.entry)
        (progress_of progress.now) (tail_of way) (value_at part.now) (road_in way) }
{
    if !task.ruler.is_no_worse(place.state, way.after) {
        return false;
    }
    let own = &progress.functions[place.number as usize - 1];
    is_shown_no_better(own, part.pieces(), way.minutes, way.cost)
}

// Whether drives of the part over the way are seen to be covered. (`IsCovered` by the state of a place, as `Rejected` of `propagation`.)
#[inline(always)]
fn is_shown_covered<R: Ruler + Copy>(
    task: Task<'_, R>,
    progress: &Progress,
    part: &CostFn,
    way: Way,
) -> bool
    requires asked { IsGoodTask R R.ruling task }
    requires shape { IsShapedFor R R.ruling task 0 progress.now }
    requires way { IsWay R R.ruling task way }
    ensures { IsTrue result → IsRoadRelaxed (task_of R R.ruling task.entry)
        (progress_of progress.now) (tail_of way) (value_at part.now) (road_in way) }
{
    for place in progress.table.places(way.head) {
        if is_shown_by(task, progress, *place, part, way) {
            return true;
        }
    }
    false
}

// Relaxes a way, for the part. (`offers_are_kept.takes` gives `facts`, `drives_are_relaxed` gives `relaxed`; `better` is `IsMerged`, `cause`
// and `pairs` of `TakesOffer`.)
#[inline(always)]
pub fn relax<R: Ruler + Copy>(
    alloc: Global,
    task: Task<'_, R>,
    tools: &mut Tools,
    progress: &mut Progress,
    part: &CostFn,
    way: Way,
) -> Result<(), OutOfMemory>
    requires asked { IsGoodTask R R.ruling task }
    requires way { IsWay R R.ruling task way }
    requires entries { AreEntrySets task.net.now task.request.until tools.old.sets }
    requires shape { IsShapedFor R R.ruling task 0 progress.old }
    requires facts { IsSearching (task_of R R.ruling task) (progress_of progress.old) (tail_of way)
        (value_at part.now) }
    requires part { IsKnownPart (task_of R R.ruling task) (progress_of progress.old) (tail_of way)
        (value_at part.now) }
    ensures entries { OnOk result
        (AreEntrySets task.entry.net.now task.entry.request.until tools.new.sets) }
    ensures shape { OnOk result (IsShapedFor R R.ruling task.entry 0 progress.new) }
    ensures facts { OnOk result (IsSearching (task_of R R.ruling task.entry)
        (progress_of progress.new) (tail_of way) (value_at part.now)) }
    ensures better { OnOk result (Improves (progress_of progress.old)
        (progress_of progress.new)) }
    ensures relaxed { OnOk result (IsRoadRelaxed (task_of R R.ruling task.entry)
        (progress_of progress.new) (tail_of way) (value_at part.now) (road_in way)) }
{
    if is_shown_covered(task, progress, part, way) {
        return Ok(());
    }
    state_dominance::rulers_simulate();
    state_dominance::offers_are_kept();
    state_dominance::drives_are_relaxed();
    let offer = offered(alloc, task, tools, progress, part, way)?;
    let info = Info {
        node: way.head,
        state: way.after,
        bound: way.bound,
    };
    take(alloc, task, tools, progress, info, &offer)?;
    tools.spares.put(offer)?;
    Ok(())
}
