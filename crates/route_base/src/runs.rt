// Rising runs of minutes, looked up by binary search.
ghost use Rattle.std.specs.Prelude.{◌↔◌, ◌<◌, ◌≤◌, IsTrue};
ghost use Rattle.route_base.specs.Runs.{AreRuns, IsFree};

use crate::{Minute, Run};

/// Whether none of the minutes from t on, as many as `minutes`, is in a run. Logarithmic in the number of runs; no memory.
pub fn is_free(runs: &[Run], t: Minute, minutes: u64) -> bool
    requires rising { AreRuns runs.now }
    requires some { 1 ≤ minutes }
    ensures { IsTrue result ↔ IsFree runs.now t minutes }
{
    let later = runs.partition_point(|r| r.hi <= t);
    match runs.get(later) {
        Some(run) => minutes <= run.lo.saturating_sub(t),
        None => true,
    }
}
