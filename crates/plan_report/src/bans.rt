// Writes the report of closed minutes.
ghost use Rattle.std.specs.Prelude.{◌≡◌, ◌++◌, All, OnOk, IfOk, flat_map};
ghost use Rattle.plan_report.specs.Bans.{closed_text, bans_text_of};
ghost use Rattle.route_base.specs.Time.{IsInstant};

use crate::instants::push_instant;
use line_texts::{push_field, push_text};
use route_base::{OutOfMemory, Run};
use std::alloc::Global;

// Appends the line of a run of closed minutes.
fn push_closed(out: &mut Vec<u8>, run: Run) -> Result<(), OutOfMemory>
    requires first { IsInstant run.lo }
    requires end { IsInstant run.hi }
    ensures { OnOk result (out.new.items ≡ out.old.items ++ closed_text run) }
{
    push_text(out, "closed ")?;
    push_instant(out, run.lo)?;
    push_text(out, " ")?;
    push_instant(out, run.hi)?;
    push_text(out, "\n")
}

// Appends the lines of runs of closed minutes.
fn push_closures(out: &mut Vec<u8>, runs: &[Run]) -> Result<(), OutOfMemory>
    requires { All (λ run. IsInstant run.lo × IsInstant run.hi) runs.now }
    ensures { OnOk result (out.new.items ≡ out.old.items ++ flat_map closed_text runs.now) }
{
    for run in runs {
        push_closed(out, *run)?;
    }
    Ok(())
}

/// The report of closed minutes: the number of runs, each run as its first instant and the first after it, and then the number of
/// rows that were passed over. Linear in the number of runs.
pub fn bans_text(alloc: Global, runs: &[Run], passed: u64) -> Result<Vec<u8>, OutOfMemory>
    requires { All (λ run. IsInstant run.lo × IsInstant run.hi) runs.now }
    ensures { IfOk result (λ v. v.items ≡ bans_text_of runs.now passed) }
{
    let mut out = Vec::new(alloc);
    push_field(&mut out, "bans ", runs.len() as u64)?;
    push_text(&mut out, "\n")?;
    push_closures(&mut out, runs)?;
    push_field(&mut out, "passed ", passed)?;
    push_text(&mut out, "\n")?;
    Ok(out)
}
