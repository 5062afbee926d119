// The progress of the search: the functions, pending minutes and pairs found so far.
ghost use Rattle.std.specs.Prelude.{◌≡◌, ◌≤◌, ◌||◌, ℕ, true, false, All, length, IfOk, OnOk, IfSome, IsNone};
ghost use Rattle.route_base.specs.Runs.{any_has};
ghost use Rattle.cost_functions.specs.Pieces.{value_at, AreSmallPieces};
ghost use Rattle.cost_functions.specs.Building.{AreBuilt};
ghost use Rattle.label_queue.specs.Keys.{IsSet};
ghost use Rattle.propagation.specs.Found.{cost_at};
ghost use Rattle.propagation.specs.Inside.States.{is_pending, IsLowered, IsAwaited};

use crate::found::Found;
use crate::spares::Spares;
use cost_functions::CostFn;
use function_merge::improve_with_spare;
use label_queue::LabelQueue;
use minute_sets::MinuteSet;
use route_base::{Bounds, Minute, NodeId, OutOfMemory, Pair};
use std::alloc::Global;

/// A function and pending minutes for each node, the pairs so far with their borders, and the nodes with pending minutes by key.
pub struct Progress {
    pub functions: Vec<CostFn>,
    pub pending: Vec<MinuteSet>,
    pub pairs: Vec<Pair>,
    pub borders: Vec<Pair>,
    pub queue: LabelQueue,
}

// By hand, so that the drops of its parts are proved here alone.
impl Drop for Progress {
    fn drop(self) {
        let Progress {
            functions: _,
            pending: _,
            pairs: _,
            borders: _,
            queue: _,
        } = self;
    }
}

impl Progress {
    // The findings of the search, with the bounds that it went by.
    pub fn into_found(self, bounds: Bounds) -> Found
        ensures { result ≡ record {
          pairs = self.pairs.items;
          functions = self.functions.items;
          bounds =
              bounds;
        } }
    {
        let Progress {
            pending: _,
            functions,
            pairs,
            borders: _,
            queue: _,
        } = self;
        Found::new(pairs, functions, bounds)
    }
}

/// Takes the lesser of the node's costs and the offered ones, in place, and answers where the offered ones are better.
#[inline(always)]
pub fn lower_at(
    alloc: Global,
    functions: &mut Vec<CostFn>,
    h: NodeId,
    offer: &CostFn,
    spares: &mut Spares,
) -> Result<MinuteSet, OutOfMemory>
    requires low { 1 ≤ h.0 }
    requires high { h.0 ≤ length functions.old.items }
    requires built { All AreBuilt functions.old.items }
    requires offer { AreSmallPieces offer.now }
    ensures lowered { IfOk result (λ improved. IsLowered h.0 (value_at offer.now) (any_has improved)
        (cost_at functions.old.items) (cost_at functions.new.items)) }
    ensures built { OnOk result (All AreBuilt functions.new.items) }
    ensures nodes { OnOk result (length functions.new.items ≡ length functions.old.items) }
{
    let spare_set = spares.take_set(alloc);
    let improved = improve_with_spare(
        alloc,
        &mut functions[h.0 as usize - 1],
        offer,
        &mut spares.pieces,
        spare_set,
    )?;
    Ok(improved)
}

/// Adds minutes to those that are pending at a node, which is then in the queue, with no larger key than this.
#[inline(always)]
pub fn await_at(
    alloc: Global,
    spares: &mut Spares,
    pending: &mut Vec<MinuteSet>,
    queue: &mut LabelQueue,
    h: NodeId,
    improved: MinuteSet,
    key: u64,
) -> Result<(), OutOfMemory>
    requires low { 1 ≤ h.0 }
    requires high { h.0 ≤ length pending.old.items }
    requires room { length pending.old.items ≤ length queue.old }
    ensures awaits { OnOk result
        (IsAwaited h.0 (any_has improved) (is_pending pending.old.items)
        (is_pending pending.new.items)) }
    ensures queue { OnOk result ((k : ℕ) × IsSet queue.old queue.new h.0 (Some k)) }
    ensures nodes { OnOk result (length pending.new.items ≡ length pending.old.items) }
{
    let place = h.0 as usize - 1;
    add_improved(alloc, spares, &mut pending[place], improved)?;
    enqueue(queue, h, key);
    Ok(())
}

// Puts a node into the queue; one that is there gets the smaller of its key and this one.
#[inline(always)]
fn enqueue(queue: &mut LabelQueue, h: NodeId, key: u64)
    requires low { 1 ≤ h.0 }
    requires high { h.0 ≤ length queue.old }
    ensures { (k : ℕ) × IsSet queue.old queue.new h.0 (Some k) }
{
    match queue.key_of(h) {
        None => queue.put(h, key),
        Some(before) => queue.lower(h, key.min(before)),
    }
}

// Adds the minutes of the second set to the first, which becomes the second where it has none; else the second is done with.
#[inline(always)]
fn add_improved(
    alloc: Global,
    spares: &mut Spares,
    own: &mut MinuteSet,
    more: MinuteSet,
) -> Result<(), OutOfMemory>
    ensures { OnOk result ((t : ℕ) → any_has own.new t ≡ (any_has own.old t || any_has more t)) }
{
    if let None = first_of(own) {
        *own = more;
        return Ok(());
    }
    own.add_all(alloc, &more)?;
    spares.put_set(more)
}

/// The first minute of a set.
pub fn first_of(set: &MinuteSet) -> Option<Minute>
    ensures some { IfSome result (λ t. any_has set.now t ≡ true) }
    ensures none { IsNone result → (t : ℕ) → any_has set.now t ≡ false }
{
    match set.runs() {
        [run, ..] => Some(run.lo),
        [] => None,
    }
}
