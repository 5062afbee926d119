// Layers of minutes, laid over one another.
ghost use Rattle.std.specs.Prelude.{◌≡◌, ◌&&◌, ℕ, IfOk, if◌then◌else◌};
ghost use Rattle.route_base.specs.Runs.{any_has, has_minute, AreRuns};
ghost use Rattle.ban_expansion.specs.Layers.{is_barred, all_have};

use minute_sets::MinuteSet;
use route_base::{OutOfMemory, Run};
use std::alloc::Global;

/// The minutes for which an access value is given, and whether it bars the vehicle.
#[derive(Drop)]
pub struct Layer {
    pub bars: bool,
    pub minutes: MinuteSet,
}

/// The closed minutes once a more special layer is laid over them. Linear in the number of runs of both, in time and memory.
pub fn overlaid(
    alloc: Global,
    closed: &MinuteSet,
    minutes: &MinuteSet,
    bars: bool,
) -> Result<MinuteSet, OutOfMemory>
    ensures minutes { IfOk result (λ set. (t : ℕ) →
        any_has set t ≡ (if any_has minutes.now t then bars else any_has closed.now t)) }
    ensures runs { IfOk result AreRuns }
{
    if bars {
        closed.union(alloc, minutes)
    } else {
        closed.minus(alloc, minutes)
    }
}

/// The closed minutes: those at which the last layer that has the minute bars. For each layer it takes time linear in the runs
/// of the layers up to this one; memory for two sets.
pub fn closed_by(alloc: Global, layers: &[Layer]) -> Result<MinuteSet, OutOfMemory>
    ensures minutes { IfOk result (λ set. (t : ℕ) → any_has set t ≡ is_barred layers.now t) }
    ensures runs { IfOk result AreRuns }
{
    let mut closed = MinuteSet::empty(alloc);
    let mut left = layers;
    'layers: while let [layer, rest @ ..] = left {
        closed = overlaid(alloc, &closed, &layer.minutes, layer.bars)?;
        left = rest;
    }
    Ok(closed)
}

/// The minutes of the window that all of the sets have; without a set, the whole window. For each set it takes time linear in its
/// runs and the runs that are common so far; memory for two sets.
pub fn common(alloc: Global, sets: &[MinuteSet], window: Run) -> Result<MinuteSet, OutOfMemory>
    ensures minutes { IfOk result (λ set. (t : ℕ) →
        any_has set t ≡ (has_minute t window && all_have sets.now t)) }
    ensures runs { IfOk result AreRuns }
{
    let mut common = MinuteSet::whole(alloc, window)?;
    let mut left = sets;
    'sets: while let [set, rest @ ..] = left {
        common = common.intersection(alloc, set)?;
        left = rest;
    }
    Ok(common)
}
