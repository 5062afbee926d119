// Adds the minutes of one set to another in place.
ghost use Rattle.std.specs.Prelude.{◌≡◌, ◌<◌, ◌≤◌, ◌+◌, ◌||◌, ◌++◌, IsTrue, ℕ, All, OnOk, OnErr, length, get_or, take};
ghost use Rattle.std.specs.List.{AllWithin};
ghost use Rattle.route_base.specs.Runs.{has_minute, any_has, AreRuns};
ghost use Rattle.route_base.specs.declared.types.Run.{Run};

use crate::sweep::{Combination, combined};
use route_base::{Minute, OutOfMemory, Run};
use std::alloc::Global;

// Adds the minutes of other runs. Those that end before the others begin stay where they are, and a binary search finds the first
// that doesn't. Where there is none, the others are appended in one copy; where one other run touches that one alone, it is widened
// in place. Else linear in the number of the others and of the runs from there on. Out of memory leaves a prefix of the runs.
pub fn add_all(alloc: Global, held: &mut Vec<Run>, other: &[Run]) -> Result<(), OutOfMemory>
    requires held { AreRuns held.old.items }
    requires other { AreRuns other.now }
    ensures minutes { OnOk result ((t : ℕ) →
        any_has held.new.items t ≡ (any_has held.old.items t || any_has other.now t)) }
    ensures runs { AreRuns held.new.items }
    ensures prefix { OnErr result ((n : ℕ) × (held.new.items ≡ take n held.old.items)) }
{
    let [first, rest @ ..] = other else {
        return Ok(());
    };
    let keep = ending_before(held, first.lo);
    if keep == held.len() {
        return append_all(held, other);
    }
    if rest.is_empty() && touches_one(held, keep, *first) {
        widen(held, keep, *first);
        return Ok(());
    }
    sweep_from(alloc, held, keep, other)
}

// Whether of the runs from a place on one that doesn't begin behind the given run is there, and only one. Constant time.
fn touches_one(runs: &[Run], place: usize, run: Run) -> bool
    requires { place < length runs.now }
    ensures own { (d : Run) → IsTrue result → (get_or runs.now place d).lo ≤ run.hi }
    ensures next { (d : Run) → IsTrue result → place + 1 < length runs.now
        → run.hi < (get_or runs.now (place + 1) d).lo }
{
    let is_before_next = match runs.get(place + 1) {
        Some(next) => run.hi < next.lo,
        None => true,
    };
    runs[place].lo <= run.hi && is_before_next
}

// Widens the run at a place by another run that touches it and no other. Constant time.
fn widen(held: &mut Vec<Run>, place: usize, run: Run)
    requires runs { AreRuns held.old.items }
    requires within { place < length held.old.items }
    requires early { AllWithin (λ r. r.hi < run.lo) held.old.items 0 place }
    requires ends { (d : Run) → run.lo ≤ (get_or held.old.items place d).hi }
    requires begins { (d : Run) → (get_or held.old.items place d).lo ≤ run.hi }
    requires next { (d : Run) → place + 1 < length held.old.items
        → run.hi < (get_or held.old.items (place + 1) d).lo }
    ensures minutes { (t : ℕ) →
        any_has held.new.items t ≡ (any_has held.old.items t || has_minute t run) }
    ensures runs { AreRuns held.new.items }
{
    let own = held[place];
    held[place] = Run {
        lo: own.lo.min(run.lo),
        hi: own.hi.max(run.hi),
    };
}

// Adds the minutes of other runs, by a sweep over them and the runs from a place on; those before it end before the others begin.
// Linear in the number of both.
fn sweep_from(
    alloc: Global,
    held: &mut Vec<Run>,
    place: usize,
    other: &[Run],
) -> Result<(), OutOfMemory>
    requires held { AreRuns held.old.items }
    requires other { AreRuns other.now }
    requires within { place ≤ length held.old.items }
    requires early { AllWithin (λ r. All (λ q. r.hi < q.lo) other.now) held.old.items 0 place }
    ensures minutes { OnOk result ((t : ℕ) →
        any_has held.new.items t ≡ (any_has held.old.items t || any_has other.now t)) }
    ensures runs { AreRuns held.new.items }
    ensures prefix { OnErr result ((n : ℕ) × (held.new.items ≡ take n held.old.items)) }
{
    let both = combined(alloc, &held[place..], other, Combination::Either)?;
    held.truncate(place);
    append_all(held, both.runs())
}

// The number of runs that end before the minute.
fn ending_before(runs: &[Run], minute: Minute) -> usize
    requires { AreRuns runs.now }
    ensures within { result ≤ length runs.now }
    ensures early { AllWithin (λ r. r.hi < minute) runs.now 0 result }
    ensures late { (d : Run) → result < length runs.now → minute ≤ (get_or runs.now result d).hi }
{
    runs.partition_point(|run| run.hi < minute)
}

// Appends runs in one copy.
fn append_all(held: &mut Vec<Run>, others: &[Run]) -> Result<(), OutOfMemory>
    requires whole { AreRuns (held.old.items ++ others.now) }
    requires held { AreRuns held.old.items }
    ensures items { OnOk result (held.new.items ≡ held.old.items ++ others.now) }
    ensures runs { AreRuns held.new.items }
    ensures kept { OnErr result (held.new.items ≡ held.old.items) }
{
    held.extend_from_slice(others)?;
    Ok(())
}
