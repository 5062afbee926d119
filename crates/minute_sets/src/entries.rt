// Minutes at which a stay between runs can begin.
ghost use Rattle.std.specs.Prelude.{◌≤◌, ◌↔◌, IsTrue, ℕ, IfOk};
ghost use Rattle.route_base.specs.Runs.{any_has, AreRuns};
ghost use Rattle.minute_sets.specs.Entries.{IsEntry};

use crate::minute_set::MinuteSet;
use route_base::{Minute, OutOfMemory, Run};
use std::alloc::Global;

// The minutes at which a stay within the window that avoids the runs can begin. Linear in the number of runs.
pub fn entries_of(
    alloc: Global,
    runs: &[Run],
    window: Run,
    minutes: u64,
) -> Result<MinuteSet, OutOfMemory>
    requires runs { AreRuns runs.now }
    requires some { 1 ≤ minutes }
    ensures minutes { IfOk result (λ set. (t : ℕ) →
        IsTrue (any_has set t) ↔ IsEntry runs.now window minutes t) }
    ensures runs { IfOk result AreRuns }
{
    let mut entries = MinuteSet::empty(alloc);
    let mut left = runs;
    let mut from: Minute = window.lo;
    'gaps: while let [run, rest @ ..] = left {
        let end = run.lo.min(window.hi);
        entries.append(Run {
            lo: from,
            hi: end.saturating_sub(minutes - 1),
        })?;
        from = from.max(run.hi);
        left = rest;
    }
    entries.append(Run {
        lo: from,
        hi: window.hi.saturating_sub(minutes - 1),
    })?;
    Ok(entries)
}
