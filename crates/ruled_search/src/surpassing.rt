// What of a state's part isn't surpassed: less is known behind the next stop already, whenever one comes there.
ghost use Rattle.std.specs.Prelude.{◌≡◌, ◌≤◌, ◌+◌, ◌*◌, ℕ, IfOk, IfSome, Some};
ghost use Rattle.cost_functions.specs.Pieces.{value_at, AreSmallPieces};
ghost use Rattle.route_base.specs.Net.{setting_of};
ghost use Rattle.state_dominance.specs.Inside.Dominance.{IsSearching};
ghost use Rattle.state_dominance.specs.Inside.NextStops.{AreReducedSums};
ghost use Rattle.state_dominance.specs.Inside.Product.{code};
ghost use Rattle.ruled_states.specs.Inside.Codes.{base};
ghost use Rattle.ruled_states.specs.Inside.Reduced.{reduced_in, sums_of};
ghost use Rattle.ruled_search.specs.Inside.Surpassing.{IsBar, IsLeftBelow};
ghost use Rattle.ruled_search.specs.Inside.Tasks.{task_of, progress_of, state_bound, IsGoodTask, IsShapedFor};

use crate::bounds::{bound_at, latest_at, most_minutes};
use crate::charges::Charge;
use crate::progress::Progress;
use crate::task::Task;
use cost_functions::{Builder, CostFn};
use route_base::{Minute, OutOfMemory};
use ruled_states::{Info, ReducedSums, Ruler};
use std::alloc::Global;

// A number with the price of some minutes, unless that is too large.
#[inline(always)]
fn raised(known: u64, price: u64, minutes: u64) -> Option<u64>
    ensures { IfSome result (λ bar. bar ≡ known + price * minutes) }
{
    known.checked_add(price.checked_mul(minutes)?)
}

// What no cost of the state, charged and with its reduced sum, may be above from a minute on: what is known behind the next stop by any minute
// at which one may come there. None where there is no stop, or such a minute without a cost.
fn bar_of<R: Ruler + Copy>(
    task: Task<'_, R>,
    progress: &Progress,
    reduced: &ReducedSums,
    info: Info,
    first: Minute,
) -> Option<u64>
    requires asked { IsGoodTask R R.ruling task }
    requires sums { AreReducedSums (setting_of task.net.now) (R.ruling task.ruler.now)
        reduced.now.price (reduced_in (sums_of reduced.now.sums.items)) }
    requires low { 1 ≤ info.node.0 }
    requires high { info.node.0 ≤ task.net.now.nodes }
    requires bound { state_bound (R.ruling task.ruler.now) task.bounds.now info.node.0 info.state
        ≡ Some info.bound }
    requires shape { (at_work : ℕ) × IsShapedFor R R.ruling task at_work progress.now }
    ensures { IfSome result (IsBar R R.ruling task.entry progress.now info reduced.now.price
        (reduced_in (sums_of reduced.now.sums.items) info.node.0
        ((R.ruling task.entry.ruler.now).stage info.state)) first) }
{
    let stage = task.ruler.stage(info.state);
    if stage >= task.ruler.service_count() {
        return None;
    }
    let next = stage + 1;
    let service = task.ruler.service(stage)?;
    let after = task.ruler.best(next);
    let number = progress.table.number_of(service.node, after)?;
    let bound = bound_at(task.bounds, task.ruler, service.node, after)?;
    let most = most_minutes(task.bounds, task.ruler, service.node, next)?;
    let begun = service.from.saturating_add(service.minutes);
    let since = first.saturating_add(service.minutes);
    let way = first
        .saturating_add(info.bound.minutes)
        .saturating_sub(most);
    let timely = latest_at(task, after).saturating_sub(bound.minutes);
    let charge = Charge {
        price: reduced.price,
        until: task.request.until,
    };
    state_dominance::next_stops_surpass();
    let known = charge.most_within(
        progress.functions[number as usize - 1].pieces(),
        begun.max(since).max(way),
        service.to.min(task.request.until).min(timely),
    )?;
    raised(known, reduced.price, service.minutes)
}

// The costs without the pieces that are above the bar.
fn left_below(
    alloc: Global,
    charge: Charge,
    added: u64,
    bar: u64,
    costs: &CostFn,
) -> Result<CostFn, OutOfMemory>
    requires small { AreSmallPieces costs.now }
    ensures left { IfOk result (λ left. IsLeftBelow charge.price charge.until added bar
        (value_at costs.now) (value_at left)) }
    ensures small { IfOk result AreSmallPieces }
{
    let mut built = Builder::new(alloc);
    let mut left = costs.pieces();
    'pieces: while let [piece, rest @ ..] = left {
        if !charge.is_above(*piece, added, bar) {
            built.push(*piece)?;
        }
        left = rest;
    }
    Ok(built.finish())
}

// What of the part isn't surpassed.
pub fn unsurpassed<R: Ruler + Copy>(
    alloc: Global,
    task: Task<'_, R>,
    progress: &Progress,
    info: Info,
    part: CostFn,
) -> Result<CostFn, OutOfMemory>
    requires asked { IsGoodTask R R.ruling task }
    requires low { 1 ≤ info.node.0 }
    requires high { info.node.0 ≤ task.net.now.nodes }
    requires bound { state_bound (R.ruling task.ruler.now) task.bounds.now info.node.0 info.state
        ≡ Some info.bound }
    requires shape { (at_work : ℕ) × IsShapedFor R R.ruling task at_work progress.now }
    requires small { AreSmallPieces part }
    requires facts { IsSearching (task_of R R.ruling task) (progress_of progress.now)
        (code base info.node.0 info.state) (value_at part) }
    ensures small { IfOk result AreSmallPieces }
    ensures kept { IfOk result (λ left. (t x : ℕ) → value_at left t ≡ Some x
        → value_at part t ≡ Some x) }
    ensures facts { IfOk result (λ left. IsSearching (task_of R R.ruling task.entry)
        (progress_of progress.now) (code base info.node.0 info.state) (value_at left)) }
{
    let Some(reduced) = task.reduced else {
        return Ok(part);
    };
    let [head, ..] = part.pieces() else {
        return Ok(part);
    };
    let Some(bar) = bar_of(task, progress, reduced, info, head.lo) else {
        return Ok(part);
    };
    state_dominance::parts_are_kept();
    let charge = Charge {
        price: reduced.price,
        until: task.request.until,
    };
    let added = reduced.of(info.node, task.ruler.stage(info.state));
    let left = left_below(alloc, charge, added, bar, &part)?;
    Ok(left)
}
