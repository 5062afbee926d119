//! The search over cost functions: the Pareto front of arrival and cost of a request, with bounds and functions that show that
//! nothing is missing.
//!
//! It is a label-correcting search over cost profiles with A* bounds (after the SEA 2020 paper on lorry routes with driving bans).
//! Each node has a cost function of the minute, whose values only fall, and pending minutes: those at which its value fell and from
//! which the arcs are still to be relaxed. A turn takes the node whose first pending minute comes first in `turn_order`, by the delay
//! of the trip and then by the minute; it takes the pieces that begin within an hour of that minute, whole, and relaxes each arc that
//! leaves the node for all of them at once, unless the head's function is plainly no higher: the part is shifted to the minutes and
//! costs at which the drives end, pruned by the bounds and by the pairs found so far, closed under waiting where the head is rated,
//! pruned again, and merged into the head's function if it is better anywhere. What arrives at the goal enters the pairs. The search
//! ends where nothing is pending. Functions and sets of minutes that are done with stay in `Spares`: the next ones are made in their
//! memory.
//!
//! Pruning is strict at ties: it drops what is late or can only end worse than a pair, and keeps what can end as a pair does. So
//! the functions have every lawful itinerary of each pair of the front, and a caller can choose among them. What a pair is better
//! than is what its *borders* dominate: the pair a thousandth dearer, and the pair a minute later. Beside the pairs the search keeps
//! these borders, in the same order, and prunes by them.
//!
//! The law is `IsFoundFor` of `specs/Found`: the pairs are the front of all lawful itineraries, and with the bounds the functions
//! leave no lawful itinerary out (`IsComplete` of `route_base`); each position of each lawful itinerary of a pair is known at its
//! cost (`HasEveryWay`); each cost is that of a lawful walk, comes by a step from another, and is at a minute from which the goal is
//! in reach by the bounds; the functions are reduced. It is proved at `search_with` for any bounds that hold along each arc, and at
//! `search` for the least bounds to the goal.
//!
//! The proof speaks of functions of node and minute, never of pieces. `specs/Inside/Invariants` has what the search keeps, the part
//! at work beside it: every wait is relaxed at once; a drive is relaxed, or its label is pending, prunable, or in the part.
//! `Pairs` has how pairs and their borders go in, `Offers` what a part becomes on its way over an arc, `States` how vectors are
//! seen so and which arcs a turn has read, `Measures` why the search ends, and `EntrySets` the minutes at which drives can begin: one
//! run where an arc is never closed, and else a set that is made once for each list of closed runs and length.
#![tactic(auto)]

mod drives;
mod entry_sets;
mod found;
mod pairs;
mod parts;
mod progress;
mod searching;
mod spares;
mod task;
mod turn_order;
mod turns;
mod ways;

pub use entry_sets::{EntrySet, EntrySets, no_entry_sets, open_starts, ready_set};
pub use found::Found;
pub use pairs::add_pairs;
pub use parts::{Split, end_of_turn, requeue, split_at};
pub use progress::{await_at, first_of, lower_at};
pub use searching::{search, search_over, search_with};
pub use spares::Spares;
pub use turn_order::turn_key;
