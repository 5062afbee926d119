//! The minutes of UTC that hours cover, as the clocks of a zone show local time.
//!
//! The law is in `specs/`. `Coverage` says as a test which minutes hours cover (`covered_at`): local time is read in the zone, and
//! the spans that began on the local day or up to seven days before it count. The law `covered_exactly` says that this test is the
//! relation of `opening_hours`; `covered_minutes` meets it for every minute of a window.
//!
//! `LocalDays` is machinery: it says which minutes of UTC the spans of a local day are, while the offset of the zone stays the
//! same. `coverage` cuts the window where the offset changes, `local_days` lays out the days of each part, and both write runs in
//! any order, of which `minute_sets` makes a set.
#![tactic(auto)]

mod coverage;
mod laws;
mod local_days;

pub use coverage::covered_minutes;
pub use laws::covered_exactly;
