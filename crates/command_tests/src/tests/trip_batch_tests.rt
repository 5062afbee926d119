// The texts of jobs on several numbers of workers, and workers that are at work at once.
ghost use Rattle.std.specs.Prelude.{◌≡◌, ◌≤◌, length};

use route_base::{Gate, JobText, NoGate, OutOfMemory};
use std::alloc::Global;
use std::sync::atomic::{AtomicU64, Ordering};
use std::thread::Threads;
use trip_batch::{JobPlanner, PartPlanner, run_batch, run_in_order};

// Plans job k as a text of k bytes.
#[derive(Drop)]
struct Lengths {
    alloc: Global,
    count: usize,
}

impl JobPlanner for Lengths {
    ghost jobs = { λ planner. planner.count };

    ghost is_right = { λ planner job text. length text ≡ job };

    fn plan_job(&self, job: usize) -> Result<JobText, OutOfMemory> {
        let text = vec![in self.alloc; b'x'; job]?;
        Ok(JobText::from_vec(text))
    }
}

// Plans three jobs, the last one first, job k as a text of k bytes.
#[derive(Drop)]
struct LastFirst {
    alloc: Global,
}

impl PartPlanner for LastFirst {
    ghost use Rattle.std.specs.Prelude.{◌≡◌, ◌+◌, length};

    ghost jobs = { λ _. 3 };

    ghost is_right = { λ _ place text. place + length text ≡ 2 };

    fn plan_part<G: Gate>(
        &self,
        from: usize,
        to: usize,
        gate: &G,
    ) -> Result<Vec<JobText>, OutOfMemory> {
        let mut texts = Vec::new(self.alloc);
        for place in from..to {
            gate.enter(2 - place);
            texts.push(JobText::from_vec(vec![in self.alloc; b'x'; 2 - place]?))?;
        }
        Ok(texts)
    }
}

// Whether each text is as long as its place tells, and there are `count` of them.
fn are_in_order(texts: &[JobText], count: usize) -> bool {
    for (job, text) in texts.iter().enumerate() {
        if text.len() != job {
            return false;
        }
    }
    texts.len() == count
}

// Whether this many workers plan eleven jobs in their order.
fn plan_in_order<R: Threads + Sync>(rt: &R, alloc: Global, workers: usize) -> bool
    requires { 1 ≤ workers }
{
    let planner = Lengths { alloc, count: 11 };
    match run_batch(rt, alloc, &planner, 11, workers, &NoGate) {
        Ok(texts) => are_in_order(texts.as_slice(), 11),
        Err(_) => false,
    }
}

#[test]
fn gives_the_texts_in_the_order_of_the_jobs(rt: HostRuntime) {
    for workers in [1, 2, 3, 11, 64] {
        assert!(rt;
            plan_in_order(&rt, rt.alloc(), workers),
            "{workers} workers"
        );
    }
}

// How often a worker looks for another one before it goes on alone.
const MOST_LOOKS: u32 = 200_000_000;

// Counts the jobs that are begun, and those whose worker looked for another one in vain.
#[derive(Drop)]
struct Meeting {
    begun: AtomicU64,
    alone: AtomicU64,
}

impl Gate for Meeting {
    fn enter(&self, _job: usize) {
        self.begun.fetch_add(1, Ordering::SeqCst);
        for _ in 0..MOST_LOOKS {
            if self.begun.load(Ordering::SeqCst) >= 2 {
                return;
            }
        }
        self.alone.fetch_add(1, Ordering::SeqCst);
    }
}

// Plans two jobs by two workers: how many jobs are begun, and how many of them by a worker who is alone.
fn begun_and_alone<R: Threads + Sync>(rt: &R, alloc: Global) -> Result<(u64, u64), OutOfMemory> {
    let gate = Meeting {
        begun: AtomicU64::new(0),
        alone: AtomicU64::new(0),
    };
    run_batch(rt, alloc, &Lengths { alloc, count: 2 }, 2, 2, &gate)?;
    let begun = gate.begun.load(Ordering::SeqCst);
    Ok((begun, gate.alone.load(Ordering::SeqCst)))
}

#[test]
fn plans_two_jobs_at_once(rt: HostRuntime) {
    assert!(rt; begun_and_alone(&rt, rt.alloc()) == Ok((2, 0)));
}

// Three jobs, the last one first.
const LAST_FIRST: &[usize] = &[2, 1, 0];

// Whether this many workers, who plan the last of three jobs first, give the texts in the order of the jobs.
fn plan_last_first<R: Threads + Sync>(rt: &R, alloc: Global, workers: usize) -> bool
    requires { 1 ≤ workers }
{
    match run_in_order(
        rt,
        alloc,
        &LastFirst { alloc },
        LAST_FIRST,
        workers,
        &NoGate,
    ) {
        Ok(texts) => are_in_order(texts.as_slice(), 3),
        Err(_) => false,
    }
}

#[test]
fn gives_texts_in_the_order_of_jobs_that_are_planned_in_another(rt: HostRuntime) {
    for workers in [1, 2, 3, 64] {
        assert!(rt;
            plan_last_first(&rt, rt.alloc(), workers),
            "{workers} workers"
        );
    }
}
