//! Rulers, which say what a driver may do: one break rule (`OneRule`), none (`NoRule`), and stops to serve in their order beside the rules
//! of either (`Serving`); the bound to a goal of a node in a state of a ruler, by labels of the node; the states that a search under a ruler
//! has reached, by number; and what of a state's costs no better state of its node dominates.
//!
//! `ruled_bounds` finds labels, and checks that their bounds hold.
#![tactic(auto)]

mod dominance;
mod labels;
mod latest;
mod laws;
mod no_rule;
mod reduced;
mod rulers;
mod serving;
mod table;

pub use dominance::undominated;
pub use labels::{Label, Labels, far_labels_of, labels_of};
pub use latest::{latest_by_left, latest_of};
pub use laws::{cuts_are_narrow, merges_by_code};
pub use no_rule::NoRule;
pub use reduced::ReducedSums;
pub use rulers::{OneRule, Ruler, Service};
pub use serving::Serving;
pub use table::{Info, Place, Table};
