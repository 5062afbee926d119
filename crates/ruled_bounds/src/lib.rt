//! Bounds to a goal for each node and state of a ruler (`ruled_states`), by labels of nodes.
//!
//! They are found by a search over labels (`label_search`), or, where breaks take little, by one label for each stage (`stage_sums`), which nodes
//! far from where the stage ends share. Nothing is proved of either: one pass over the arcs and labels checks them (`label_check`). For each arc
//! and label of its head's own, one that counts for its tail is as good; those that are shared hold along each arc. So they hold along each drive,
//! rest and service of each state (`AreRuledBounds` of `state_dominance`), though no state is made. So it is with
//! sums of what is paid above a price on the way to each stop (`stop_sums`).
#![tactic(auto)]

mod back_star;
mod label_check;
mod label_search;
mod radix_queue;
mod stage_sums;
mod stages;
mod stop_sums;

pub use label_check::ruled_labels;
pub use label_search::Ground;
pub use stop_sums::reduced_sums;
