// Jobs that are planned in another order than their own.
ghost use Rattle.std.specs.Prelude.{◌≡◌, ◌<◌, ◌≤◌, ℕ, length, All, Contains, IfOk};
ghost use Rattle.trip_batch.specs.Right.{AreRight, AreRightByJob};
ghost use Rattle.trip_batch.specs.Inside.Placing.{ArePlaced};

use crate::parts::run_parts;
use crate::{JobTexts, PartPlanner};
use route_base::{Gate, JobText, OutOfMemory};
use std::alloc::Global;
use std::thread::Threads;

// A list of empty texts.
fn no_texts(alloc: Global, count: usize) -> Result<Vec<JobText>, OutOfMemory>
    ensures { IfOk result (λ texts. length texts.items ≡ count) }
{
    let mut texts = Vec::with_capacity(alloc, count)?;
    for _ in 0..count {
        texts.push(JobText::new(alloc))?;
    }
    Ok(texts)
}

// The texts by job, where `order` has the job of each place. Each text is moved.
fn by_job(alloc: Global, order: &[usize], texts: Vec<JobText>) -> Result<Vec<JobText>, OutOfMemory>
    requires count { length texts.items ≡ length order.now }
    requires each { All (λ job. job < length order.now) order.now }
    ensures count { IfOk result (λ placed. length placed.items ≡ length order.now) }
    ensures placed { IfOk result (λ placed. ArePlaced order.now 0 texts.items placed.items) }
{
    let mut placed = no_texts(alloc, order.len())?;
    let mut left = texts;
    'places: while let Some(text) = left.pop() {
        placed[order[left.len()]] = text;
    }
    Ok(placed)
}

/// Right texts of all jobs, by job, where the planner plans them in another order: `order` has the number of the job that is planned
/// at each place, and the planner plans by place. It takes the time and memory of `run_in_parts`, and is linear in the jobs beside.
pub fn run_in_order<R: Threads + Sync, P: PartPlanner, G: Gate>(
    rt: &R,
    alloc: Global,
    planner: &P,
    order: &[usize],
    workers: usize,
    gate: &G,
) -> Result<JobTexts, OutOfMemory>
    requires count { length order.now ≡ P.jobs planner.now }
    requires each { All (λ job. job < length order.now) order.now }
    requires all { (job : ℕ) → job < length order.now → Contains order.now job }
    requires some { 1 ≤ workers }
    ensures { IfOk result (λ texts. AreRightByJob (P.is_right planner.now) order.now texts) }
{
    let texts = run_parts(rt, planner, 0, order.len(), workers, gate)?;
    Ok(JobTexts::from_vec(by_job(alloc, order, texts)?))
}
