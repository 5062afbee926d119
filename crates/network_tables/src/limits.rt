//! The number that bounds a table of jobs beside those of `route_base::limits`.

/// The most data rows of a table of jobs.
pub const MOST_JOBS: u32 = 10_000;
