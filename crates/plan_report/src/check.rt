// Writes the line of a verdict.
ghost use Rattle.std.specs.Prelude.{◌≡◌, IfOk};
ghost use Rattle.plan_report.specs.Check.{check_text_of};

use crate::Verdict3;
use line_texts::{push_field, push_text};
use route_base::OutOfMemory;
use std::alloc::Global;

/// The line of a verdict on a certificate of this number of pairs. In constant time.
pub fn check_text(alloc: Global, verdict: Verdict3, pairs: usize) -> Result<Vec<u8>, OutOfMemory>
    ensures { IfOk result (λ v. v.items ≡ check_text_of verdict pairs) }
{
    let mut out = Vec::new(alloc);
    match verdict {
        Verdict3::Accepted => push_field(&mut out, "accepted ", pairs as u64)?,
        Verdict3::Rejected(number) => push_field(&mut out, "rejected ", number as u64)?,
    }
    push_text(&mut out, "\n")?;
    Ok(out)
}
