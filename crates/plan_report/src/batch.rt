// Writes the report of a batch.
ghost use Rattle.std.specs.Prelude.{◌≡◌, ◌++◌, OnOk, IfOk};
ghost use Rattle.plan_report.specs.Batch.{batch_text_of, job_text};
ghost use Rattle.plan_report.specs.Stages.{numbered_text};

use line_texts::{push_field, push_text};
use route_base::{JobText, OutOfMemory};
use std::alloc::Global;

// Appends the line of a job, and then its text.
fn push_job(out: &mut Vec<u8>, number: u64, text: &JobText) -> Result<(), OutOfMemory>
    ensures { OnOk result (out.new.items ≡ out.old.items ++ job_text number text.now) }
{
    push_field(out, "job ", number)?;
    push_text(out, "\n")?;
    out.extend_from_slice(text.as_slice())?;
    Ok(())
}

// Appends the lines of jobs and their texts, numbered from 1.
fn push_jobs(out: &mut Vec<u8>, texts: &[JobText]) -> Result<(), OutOfMemory>
    ensures { OnOk result (out.new.items ≡ out.old.items ++ numbered_text job_text 1 texts.now) }
{
    for i in 0..texts.len() {
        push_job(out, i as u64 + 1, &texts[i])?;
    }
    Ok(())
}

/// The report of a batch: for each job its number from 1, and its text. Linear in the bytes.
pub fn batch_text(alloc: Global, texts: &[JobText]) -> Result<Vec<u8>, OutOfMemory>
    ensures { IfOk result (λ v. v.items ≡ batch_text_of texts.now) }
{
    let mut out = Vec::new(alloc);
    push_jobs(&mut out, texts)?;
    Ok(out)
}
