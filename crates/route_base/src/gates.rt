// Gates, through which a worker goes before it begins a piece of work.

/// Called with the number of a piece of work before a worker begins it: so a test can hold two workers until both are at work.
pub trait Gate: Sync {
    /// A worker comes to the piece of this number, which is a job of a batch or a part of an expansion, from 0.
    fn enter(&self, job: usize);
}

/// Lets every worker pass.
#[derive(Clone, Copy)]
pub struct NoGate;

impl Gate for NoGate {
    fn enter(&self, _job: usize) {}
}
