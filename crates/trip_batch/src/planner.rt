// The planners of jobs and of parts of jobs.
ghost use Rattle.std.specs.Prelude.{◌<◌, ◌≤◌, ℕ, List, IfOk};
ghost use Rattle.trip_batch.specs.Right.{AreRight};

use route_base::{Gate, JobText, Listing, OutOfMemory};

/// The texts of jobs, in the order of the jobs.
pub type JobTexts = Listing<JobText>;

/// Plans jobs, which are numbered from 0. Workers share it.
pub trait JobPlanner: Sync {
    /// How many jobs there are.
    ghost jobs: { Self → ℕ };

    /// The text is a right text of the job of this number.
    ghost is_right: { Self → ℕ → List ℕ → Type 0 };

    /// A right text of a job.
    fn plan_job(&self, job: usize) -> Result<JobText, OutOfMemory>
        requires { job < jobs self.now }
        ensures { IfOk result (λ text. is_right self.now job text) };
}

/// Plans parts of jobs, which are numbered from 0, so that what serves several jobs of a part is made once. Workers share it.
pub trait PartPlanner: Sync {
    /// How many jobs there are.
    ghost jobs: { Self → ℕ };

    /// The text is a right text of the job of this number.
    ghost is_right: { Self → ℕ → List ℕ → Type 0 };

    /// Right texts of the jobs from `from` up to, but not including, `to`, in their order. The gate is entered before each job.
    fn plan_part<G: Gate>(
        &self,
        from: usize,
        to: usize,
        gate: &G,
    ) -> Result<Vec<JobText>, OutOfMemory>
        requires order { from ≤ to }
        requires within { to ≤ jobs self.now }
        ensures { IfOk result (λ texts. AreRight (is_right self.now) from to texts.items) };
}
