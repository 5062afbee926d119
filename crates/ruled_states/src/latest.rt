// The latest minutes for bounds to the goal, by the number of services that are left.
ghost use Rattle.std.specs.Prelude.{◌≡◌, ◌≤◌, ℕ, suc, Some, IfOk, IsTrue, length};
ghost use Rattle.route_base.specs.declared.types.Bound.{Bound};
ghost use Rattle.state_dominance.specs.Inside.Product.{AreLatest, IsStaged};
ghost use Rattle.ruled_states.specs.Inside.Labels.{least_fit, label_bound, lists_of};
ghost use Rattle.ruled_states.specs.Inside.Latest.{latest_by, HasNeed, IsLargeFor, IsLargest, IsLargestFar, IsInTime};

use crate::labels::{Label, Labels, far_labels_of, labels_of};
use crate::rulers::Ruler;
use route_base::{Minute, OutOfMemory};
use std::alloc::Global;

// The largest value of a label whose need has more than `served` services; 0 if there is none.
fn largest_value<R: Ruler>(ruler: &R, labels: &[Label], served: u64) -> u64
    ensures { IsLargest (R.ruling ruler.now) labels.now served result }
{
    let mut largest = 0;
    for label in labels {
        if served < ruler.stage(label.need) {
            largest = label.value.max(largest);
        }
    }
    largest
}

// Whether some label has this need.
fn has_need(labels: &[Label], need: u64) -> bool
    ensures { IsTrue result → HasNeed labels.now need }
{
    for label in labels {
        if label.need == need {
            return true;
        }
    }
    false
}

// The larger of a value and that of a label, if its need has more than `served` services and no label near has it.
fn larger_far<R: Ruler>(ruler: &R, near: &[Label], served: u64, label: Label, largest: u64) -> u64
    ensures low { largest ≤ result }
    ensures large { IsLargeFor (R.ruling ruler.now) near.now served result label }
{
    if ruler.stage(label.need) <= served {
        return largest;
    }
    if has_need(near, label.need) {
        return largest;
    }
    label.value.max(largest)
}

// The largest value of a label that counts for every node, whose need has more than `served` services and is that of no label near; 0 if
// there is none.
fn largest_far<R: Ruler>(ruler: &R, near: &[Label], far: &[Label], served: u64) -> u64
    ensures { IsLargestFar (R.ruling ruler.now) near.now far.now served result }
{
    let mut largest = 0;
    for label in far {
        largest = larger_far(ruler, near, served, *label, largest);
    }
    largest
}

// The latest minute before the service at a place, by that after it: whoever comes to the goal later than its window and the largest bound
// after it allow has missed the window.
fn latest_before<R: Ruler>(ruler: &R, labels: &Labels, after: Minute, place: u64) -> Minute
    ensures low { result ≤ after }
    ensures in_time { IsInTime (R.ruling ruler.now) (label_bound (R.ruling ruler.now)
        (lists_of labels.now.minutes.items) (lists_of labels.now.costs.items)) place after result }
{
    let Some(service) = ruler.service(place) else {
        return after;
    };
    let behind = labels_of(&labels.minutes, service.node);
    let far = far_labels_of(&labels.minutes);
    let near = largest_value(ruler, behind, place);
    let largest = largest_far(ruler, behind, far, place).max(near);
    let to = service.to.saturating_add(largest);
    to.min(after)
}

/// For each number of services that are left, from none on, the latest Unix minute for bounds to the goal: a label is of no use if its minute
/// and the least minutes to the goal together are later, as it misses some window then. One pass over the labels at the services, with a
/// minute for each service in memory. The only error is out of memory.
pub fn latest_by_left<R: Ruler>(
    alloc: Global,
    ruler: &R,
    labels: &Labels,
    until: Minute,
) -> Result<Vec<Minute>, OutOfMemory>
    ensures { IfOk result (λ minutes. AreLatest (R.ruling ruler.now) until
        (label_bound (R.ruling ruler.now) (lists_of labels.now.minutes.items)
        (lists_of labels.now.costs.items)) (latest_by (R.ruling ruler.now) minutes.items until)) }
{
    let count = ruler.service_count();
    let mut minutes = Vec::new(alloc);
    minutes.push(until)?;
    let mut latest = until;
    for left in 0..count {
        latest = latest_before(ruler, labels, latest, count - 1 - left);
        minutes.push(latest)?;
    }
    Ok(minutes)
}

/// The latest minute of a state among these; `until` if there are none. In constant time.
#[inline(always)]
pub fn latest_of<R: Ruler>(ruler: &R, minutes: &[Minute], until: Minute, state: u64) -> Minute
    ensures { result ≡ latest_by (R.ruling ruler.now) minutes.now until state }
{
    let left = ruler.service_count().saturating_sub(ruler.stage(state));
    match minutes.get(left as usize) {
        Some(minute) => *minute,
        None => until,
    }
}
