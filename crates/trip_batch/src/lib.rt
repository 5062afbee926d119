//! Plans many jobs over one planner, on several workers, and gives their texts in the order of the jobs.
//!
//! The law is `AreRight` of `specs/Right`: there is one text for each job, and each is a right text of the job at its place,
//! whatever the number of workers. The `JobPlanner` says what a right text is. It is proved at `run_batch`.
//! `AreRightByJob` says so of jobs that are planned in another order than their own, and is proved at `run_in_order`.
//!
//! Jobs are cut into consecutive parts, one for each worker, whose lengths differ by one at most, the longer ones first. A part is
//! planned job by job. Workers share the planner by reference, without a lock and without a copy.
#![tactic(auto)]

mod one_by_one;
mod ordered;
mod parts;
mod planner;
mod threads;

pub use ordered::run_in_order;
pub use parts::{run_batch, run_in_parts};
pub use planner::{JobPlanner, JobTexts, PartPlanner};
