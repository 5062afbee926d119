//! Label correcting over states: the facts of a search whose nodes are states, of which some are no worse than others, and what it has
//! found when nothing is pending.
//!
//! A ruler (`specs/Inside/Product`) says what a driver may do in a state: which drives, rests and services, to which states they lead, and
//! which states are no worse than which. `OneRule` has the ruler of one break rule, whose states are the minutes driven since the last
//! break, `NoRule` that without a rule, and `Serving` that of a trip which serves stops in their order and keeps another ruler's rules. The setting over states
//! (`product`) has a node for each node and state, and a road for each drive, rest and service.
//!
//! The laws are calls that do nothing. `finished_is_front`: when nothing is pending, the pairs are the Pareto front over all walks of the
//! setting, though drives go on only from labels that no state which is no worse matches at their minute. `best_ways_are_known`: each
//! position of a walk to a pair, than which none that is reached is better, is then known with its cost. The others say that the steps of
//! a search keep these facts (`specs/Inside/Dominance`, `Taking`, `Widening`), that rulers give such a search (`rulers_simulate`), and that
//! a cost needn't be followed if less is known behind the next stop (`next_stops_surpass`, `specs/Inside/NextStops`).
#![tactic(auto)]

mod laws;

pub use laws::{
    best_ways_are_known, drives_are_relaxed, drives_are_wide, finished_is_front,
    next_stops_surpass, no_rule_simulates, offers_are_kept, one_rule_simulates, parts_are_kept,
    rulers_simulate, servings_simulate, starts_are_first, wide_offers_narrow,
};
