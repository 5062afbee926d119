// Merges runs in the order in which they begin.
ghost use Rattle.std.specs.Prelude.{◌≡◌, ◌<◌, ◌≤◌, ℕ, ◌||◌, All, IfOk, OnOk, OnErr};
ghost use Rattle.std.specs.List.Sorted.{IsNonDecreasingBy};
ghost use Rattle.route_base.specs.Runs.{has_minute, any_has, AreRuns};

use route_base::{OutOfMemory, Run};
use std::alloc::Global;

// The minutes of the runs, as runs that don't touch. Linear in their number.
pub fn merged(alloc: Global, runs: &[Run]) -> Result<Vec<Run>, OutOfMemory>
    requires { IsNonDecreasingBy (λ r. r.lo) runs.now }
    ensures minutes { IfOk result (λ v. (t : ℕ) → any_has v.items t ≡ any_has runs.now t) }
    ensures runs { IfOk result (λ v. AreRuns v.items) }
{
    let mut merged = Vec::new(alloc);
    for run in runs {
        add(&mut merged, *run)?;
    }
    Ok(merged)
}

// Adds the minutes of a run that begins where the others do or later. Constant time on average.
pub fn add(merged: &mut Vec<Run>, run: Run) -> Result<(), OutOfMemory>
    requires runs { AreRuns merged.old.items }
    requires later { All (λ r. r.lo ≤ run.lo) merged.old.items }
    ensures minutes { OnOk result ((t : ℕ) →
        any_has merged.new.items t ≡ (any_has merged.old.items t || has_minute t run)) }
    ensures runs { AreRuns merged.new.items }
    ensures begins { OnOk result (All (λ r. r.lo ≤ run.lo) merged.new.items) }
    ensures kept { OnErr result (merged.new.items ≡ merged.old.items) }
{
    if run.hi <= run.lo {
        return Ok(());
    }
    match merged.last_mut() {
        Some(last) if run.lo <= last.hi => {
            last.hi = last.hi.max(run.hi);
        }
        _ => merged.push(run)?,
    }
    Ok(())
}
