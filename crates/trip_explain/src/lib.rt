//! Says why an itinerary over a road network is unlawful: the first leg that can't be travelled, the minute and the reason; or, for a
//! lawful one, its pair, and which pair of a Pareto front is better.
//!
//! The law is in `specs/`. `Reasons` says why a step can't be made (`IsBarred`): each reason holds the denial of those that come before
//! it. Which rule decides an arc's access is said by `Rulings` of `road_access`. `Explanations` says which leg is the first that fails,
//! and what an explanation says of legs (`IsExplained`): `explain` meets it, over the road setting. Legs that are unlawful achieve no
//! pair (`never_both`), and have one leg, minute and reason (`one_explanation`), so that the answer is exact. `Dominators` says which
//! pair is the first that dominates another, and `dominator` meets it; the laws `dominates_exactly` and `undominated_exactly` say what
//! it means for a Pareto front.
//!
//! An itinerary's file is read by `read_itinerary`, as `specs/ItineraryFile` says: its legs are those of its lines, or it is refused with
//! its first bad line. `explain_text` writes an explanation as `specs/ExplanationText` says.
//!
//! `specs/Inside` is no law: it is what `legs`, `closed_minutes` and `open_parks` say of one leg, of the minutes of a drive and of those
//! of a wait. As `arc_ruling` of `road_access` says for how long a rule decides, the access of a long drive is decided once for each
//! change of its rules' hours, without memory. In `proofs/`, `OnlyReason`, `OneExplanation` and `OnlyExplanation` are about the laws,
//! from steps to legs.
#![tactic(auto)]

mod closed_minutes;
mod dominators;
mod explanation;
mod faults;
mod itinerary_file;
mod laws;
mod legs;
mod open_parks;
mod text;
mod text_laws;
mod trips;

pub use dominators::dominator;
pub use explanation::{Explanation, Why};
pub use faults::ItineraryFault;
pub use itinerary_file::read_itinerary;
pub use laws::{dominates_exactly, never_both, one_explanation, undominated_exactly};
pub use road_access::ruling_decides;
pub use text::explain_text;
pub use text_laws::{each_line_has_its_leg, leg_lines_exactly};
pub use trips::explain;
