// The bounds of states, and their latest minutes.
ghost use Rattle.std.specs.Prelude.{◌≡◌, ◌≤◌, ℕ, IfSome, Some};
ghost use Rattle.route_base.specs.declared.types.Bound.{Bound as BoundAt};
ghost use Rattle.ruled_search.specs.Inside.Tasks.{latest_in, state_bound};

use crate::task::Task;
use route_base::{Bound, Minute, NodeId};
use ruled_states::{Labels, Ruler, latest_of};

// The bound of a state at a node: that of the labels, or nothing where there are none.
pub fn bound_at<R: Ruler>(
    bounds: &Option<Labels>,
    ruler: &R,
    node: NodeId,
    state: u64,
) -> Option<Bound>
    ensures { result ≡ state_bound (R.ruling ruler.now) bounds.now node.0 state }
{
    match bounds {
        Some(labels) => labels.bound(ruler, node, state),
        None => Some(Bound {
            minutes: 0,
            cost: 0,
        }),
    }
}

// Minutes than which no bound of a state of the stage at the node has more, where there are such.
pub fn most_minutes<R: Ruler>(
    bounds: &Option<Labels>,
    ruler: &R,
    node: NodeId,
    stage: u64,
) -> Option<u64>
    ensures { IfSome result (λ most. (k : ℕ) (b : BoundAt) → (R.ruling ruler.now).stage k ≡ stage
        → state_bound (R.ruling ruler.now) bounds.now node.0 k ≡ Some b → b.minutes ≤ most) }
{
    match bounds {
        Some(labels) => labels.most_minutes(ruler, node, stage),
        None => Some(0),
    }
}

// The latest minute of a state.
#[inline(always)]
pub fn latest_at<R: Ruler>(task: Task<'_, R>, state: u64) -> Minute
    ensures { result ≡ latest_in R R.ruling task.entry state }
{
    latest_of(task.ruler, task.latest, task.request.until, state)
}
