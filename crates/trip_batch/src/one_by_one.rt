// A planner of jobs as one of parts.
ghost use Rattle.std.specs.Prelude.{◌<◌, ◌≤◌, IfOk};

use crate::{JobPlanner, PartPlanner};
use route_base::{Gate, JobText, OutOfMemory};
use std::alloc::Global;

/// Plans the jobs of a part one after another, each by itself.
#[derive(Drop)]
pub struct OneByOne<'a, P: JobPlanner> {
    pub alloc: Global,
    pub planner: &'a P,
}

impl<P: JobPlanner> PartPlanner for OneByOne<'_, P> {
    ghost jobs = { λ parts. P.jobs parts.planner.now };

    ghost is_right = { λ parts job text. P.is_right parts.planner.now job text };

    fn plan_part<G: Gate>(
        &self,
        from: usize,
        to: usize,
        gate: &G,
    ) -> Result<Vec<JobText>, OutOfMemory> {
        let mut texts = Vec::new(self.alloc);
        for job in from..to {
            gate.enter(job);
            texts.push(self.planner.plan_job(job)?)?;
        }
        Ok(texts)
    }
}
