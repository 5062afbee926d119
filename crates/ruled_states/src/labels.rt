// Labels of nodes, and the bounds of states by them.
ghost use Rattle.std.specs.Prelude.{◌≡◌, ◌≤◌, ℕ, IfSome, Some, map};
ghost use Rattle.route_base.specs.declared.types.Bound.{Bound as BoundAt};
ghost use Rattle.function_merge.specs.Least.{least_of};
ghost use Rattle.ruled_states.specs.Inside.Labels.{fit_value, least_fit, far_labels, label_bound, labels_at, labels_for, lists_of, IsSure};

use crate::rulers::Ruler;
use route_base::{Bound, NodeId};

/// A way from a node to the goal: what is counted of it, and the state that it needs to be allowed.
#[derive(Clone, Copy)]
pub struct Label {
    pub value: u64,
    pub need: u64,
}

/// For each node, from 1 on, the labels of least minutes and of least costs. Those at place 0, where no node is, count for every node: so a node
/// that is far from where a stage ends needs none of its own for that stage.
#[derive(Drop)]
pub struct Labels {
    pub minutes: Vec<Vec<Label>>,
    pub costs: Vec<Vec<Label>>,
}

// The lesser of a value and that of a label, if it fits after a state.
#[inline(always)]
fn better_fit<R: Ruler>(ruler: &R, least: Option<u64>, state: u64, label: Label) -> Option<u64>
    ensures { result ≡ least_of least (fit_value (R.ruling ruler.now) state label) }
{
    if !ruler.fits(state, label.need) {
        return least;
    }
    match least {
        Some(known) => Some(known.min(label.value)),
        None => Some(label.value),
    }
}

// The least value of a label that fits after a state.
#[inline(always)]
fn least_within<R: Ruler>(ruler: &R, labels: &[Label], state: u64) -> Option<u64>
    ensures { result ≡ least_fit (R.ruling ruler.now) labels.now state }
{
    let mut least: Option<u64> = None;
    let mut left = labels;
    'fits: while let [label, rest @ ..] = left {
        least = better_fit(ruler, least, state, *label);
        left = rest;
    }
    least
}

/// The labels of a node, of lists by node from 0 on; none where there is no list. In constant time.
#[inline(always)]
pub fn labels_of(lists: &[Vec<Label>], node: NodeId) -> &[Label]
    ensures { result.now ≡ labels_at (lists_of lists.now) node.0 }
{
    match lists.get(node.0 as usize) {
        Some(labels) => labels.as_slice(),
        None => &[],
    }
}

/// The labels that count for every node, of lists by node from 1 on: those at place 0. In constant time.
#[inline(always)]
pub fn far_labels_of(lists: &[Vec<Label>]) -> &[Label]
    ensures { result.now ≡ far_labels (lists_of lists.now) }
{
    labels_of(lists, NodeId(0))
}

// The lesser of values that may be missing.
#[inline(always)]
fn lesser(first: Option<u64>, second: Option<u64>) -> Option<u64>
    ensures { result ≡ least_of first second }
{
    match (first, second) {
        (Some(one), Some(other)) => Some(one.min(other)),
        (Some(one), None) => Some(one),
        (None, other) => other,
    }
}

// The least value of a label that fits after a state, of those that count for a node.
#[inline(always)]
fn least_for<R: Ruler>(ruler: &R, lists: &[Vec<Label>], node: NodeId, state: u64) -> Option<u64>
    ensures { result ≡ least_fit (R.ruling ruler.now) (labels_for (lists_of lists.now) node.0)
        state }
{
    let own = least_within(ruler, labels_of(lists, node), state);
    let far = least_within(ruler, far_labels_of(lists), state);
    lesser(own, far)
}

// The value of the first label that is sure to fit after each state of the stage.
fn sure_value<R: Ruler>(ruler: &R, labels: &[Label], stage: u64) -> Option<u64>
    ensures { IfSome result (IsSure (R.ruling ruler.now) labels.now stage) }
{
    for label in labels {
        if ruler.stage(label.need) == stage && ruler.fits_all(label.need) {
            return Some(label.value);
        }
    }
    None
}

impl Labels {
    /// Minutes than which no bound of a state of the stage at the node has more; none where no label of the node's own is sure to fit.
    pub fn most_minutes<R: Ruler>(&self, ruler: &R, node: NodeId, stage: u64) -> Option<u64>
        ensures { IfSome result (λ most. (k : ℕ) (b : BoundAt)
            → (R.ruling ruler.now).stage k ≡ stage → label_bound (R.ruling ruler.now) (lists_of self.now.minutes.items)
            (lists_of self.now.costs.items) node.0 k ≡ Some b → b.minutes ≤ most) }
    {
        sure_value(ruler, labels_of(&self.minutes, node), stage)
    }

    /// The bound of a state at a node; none where no label fits.
    #[inline(always)]
    pub fn bound<R: Ruler>(&self, ruler: &R, node: NodeId, state: u64) -> Option<Bound>
        ensures { result ≡ label_bound (R.ruling ruler.now) (lists_of self.now.minutes.items)
            (lists_of self.now.costs.items) node.0 state }
    {
        let minutes = least_for(ruler, &self.minutes, node, state)?;
        let cost = least_for(ruler, &self.costs, node, state)?;
        Some(Bound { minutes, cost })
    }
}
