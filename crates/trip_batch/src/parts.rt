// Cuts jobs into parts, and plans each part on a worker.
ghost use Rattle.std.specs.Prelude.{◌≡◌, ◌<◌, ◌≤◌, IfOk};
ghost use Rattle.std.specs.Thread.{IsSync};
ghost use Rattle.trip_batch.specs.Right.{AreRight};

use crate::one_by_one::OneByOne;
use crate::{JobPlanner, JobTexts, PartPlanner};
use route_base::{Gate, JobText, OutOfMemory};
use std::alloc::Global;
use std::thread::{Threads, join};

// The jobs of the first of all workers: each has its share, and the first ones one more until none is left over.
fn jobs_of_first(jobs: usize, workers: usize, first: usize) -> usize
    requires some { 1 ≤ workers }
    requires within { first ≤ workers }
    ensures { result ≤ jobs }
{
    first * (jobs / workers) + first.min(jobs % workers)
}

// The jobs of several parts, a worker for each: half of the workers beside the other half.
pub fn run_parts<R: Threads + Sync, P: PartPlanner, G: Gate>(
    rt: &R,
    planner: &P,
    from: usize,
    to: usize,
    workers: usize,
    gate: &G,
) -> Result<Vec<JobText>, OutOfMemory>
    requires order { from ≤ to }
    requires within { to ≤ P.jobs planner.now }
    requires some { 1 ≤ workers }
    ensures { IfOk result (λ texts. AreRight (P.is_right planner.now) from to texts.items) }
{
    if workers == 1 {
        return planner.plan_part(from, to, gate);
    }
    let left_workers = workers / 2;
    let middle = from + jobs_of_first(to - from, workers, left_workers);
    let (left, right) = join(
        rt,
        || -> Result<Vec<JobText>, OutOfMemory>
            requires shared { IsSync R.row × IsSync P.row × IsSync G.row }
            requires order { from ≤ middle }
            requires within { middle ≤ P.jobs planner.now }
            requires some { 1 ≤ left_workers }
            ensures { IfOk result
                (λ texts. AreRight (P.is_right planner.entry.now) from middle texts.items) }
        { run_parts(rt, planner, from, middle, left_workers, gate) },
        || -> Result<Vec<JobText>, OutOfMemory>
            requires shared { IsSync R.row × IsSync P.row × IsSync G.row }
            requires order { middle ≤ to }
            requires within { to ≤ P.jobs planner.now }
            requires some { 1 ≤ left_workers }
            requires rest { left_workers < workers }
            ensures { IfOk result
                (λ texts. AreRight (P.is_right planner.entry.now) middle to texts.items) }
        { run_parts(rt, planner, middle, to, workers - left_workers, gate) },
    );
    let mut texts = left?;
    texts.append(&mut right?)?;
    Ok(texts)
}

/// Right texts of all jobs of the planner, in their order, planned on `workers` workers at once, each with one part of consecutive
/// jobs. It takes the time of the longest part and the memory of the texts, beside what the parts take at once.
/// For other callers: the program plans a batch by `run_in_order`.
pub fn run_in_parts<R: Threads + Sync, P: PartPlanner, G: Gate>(
    rt: &R,
    planner: &P,
    count: usize,
    workers: usize,
    gate: &G,
) -> Result<JobTexts, OutOfMemory>
    requires count { count ≡ P.jobs planner.now }
    requires some { 1 ≤ workers }
    ensures { IfOk result (λ texts. AreRight (P.is_right planner.now) 0 count texts) }
{
    Ok(JobTexts::from_vec(run_parts(rt, planner, 0, count, workers, gate)?))
}

/// Right texts of all jobs of the planner, in their order, planned on `workers` workers at once. It takes the time of the longest part
/// and the memory of the texts.
/// For other callers: the program plans a batch by `run_in_order`.
pub fn run_batch<R: Threads + Sync, P: JobPlanner, G: Gate>(
    rt: &R,
    alloc: Global,
    planner: &P,
    count: usize,
    workers: usize,
    gate: &G,
) -> Result<JobTexts, OutOfMemory>
    requires count { count ≡ P.jobs planner.now }
    requires some { 1 ≤ workers }
    ensures { IfOk result (λ texts. AreRight (P.is_right planner.now) 0 count texts) }
{
    let parts = OneByOne { alloc, planner };
    run_in_parts(rt, &parts, count, workers, gate)
}
