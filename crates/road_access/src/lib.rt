//! Who decides whether an arc lets a vehicle in at an instant: the rule of its area or its own that is the last to give an access, or
//! none.
//!
//! The law is in `specs/`. `Rulings` says which rule decides, over the places of `network_tables`; the law `ruling_decides` ties it to
//! `Access` there, where it says when an arc is closed. `Steadiness` says for how many minutes of the local day the same rule decides
//! (`RuleSteadily`): `arc_ruling` finds both in one walk over the arc's rules, without memory. `Closures` says which of the arc's
//! closures is the first that has a minute. `closed_at` is the test whether an arc is closed at one instant; `closed_set` of
//! `ban_expansion` has the closed minutes of a window.
//!
//! `specs/Inside` is no law: it says throughout which minutes hours, conditional values and the places of some keys say the same.
#![tactic(auto)]

mod access;
mod closures;
mod laws;
mod rulings;
mod steady_clauses;
mod steady_hours;

pub use access::closed_at;
pub use closures::first_closure;
pub use laws::ruling_decides;
pub use rulings::{Ruling, SteadyRuling, arc_ruling};
