//! Tours, and trips and tours that keep a break rule, by the search over states.
//!
//! The law of tours without a rule is `AreRightTours` of `stop_tour`, a clause of `plan_tour`: their Pareto front, each pair with the
//! legs of the first of its tours. It is that of `stop_tour::tour`, so that both have one answer (`one_tour_answer`).
//!
//! The law of tours under a rule is `AreRightRestedTours` of `specs/RestedTours`, a clause of `plan_rested_tour`: the pairs are the
//! Pareto front of all lawful tours of the stops that keep the rule, where a service counts as a drive of no minutes, and each pair has
//! the legs of the first: compared from the end, fewer minutes driven since the last break come first, and then the earlier step. That of
//! trips is `AreRightRested` and `IsFirstRested` of `drive_breaks`, two clauses of `plan_rested`. Without stops both are the same
//! (`no_stops_is_the_rested_trip`).
//!
//! All are the search of `ruled_search`, by the bounds of `ruled_bounds` (`planning`), over states that are made when they are reached: the minutes driven since the last break, with
//! the number of stops that were served; without a rule that number alone. By the law `rested_tours_are_found` the front over these
//! states is that of rested tours. `legs` tells the legs over states as those of a tour, in which a rest is a wait, and neighbouring
//! waits are one; `told_routes` does so for routes.
//!
//! `specs/Inside` is no law: it has the rulers of tours (`TourRuler`, `PlainTours`) and what legs over states tell (`ToldLegs`). In
//! `proofs/`, `Sound` reads a walk over states as a tour, `LeastWalks` goes the other way, and `Fronts` puts them together. `StateSteps`
//! says what is known of the states of a walk, and `FirstTours` compares a walk that was found, with the minutes since some break
//! (`FoundWalks`), with a least one. `ServingSteps` has one step over states that serve stops, under any rules. Without a rule `PlainWalks`
//! goes both ways, step for step, `PlainOrder` compares walks, and `PlainTours` puts them together.
#![tactic(auto)]

mod laws;
mod legs;
mod plain_tours;
mod planning;
mod told_routes;
mod tours;
mod trip_legs;
mod trip_routes;
mod trips;

pub use drive_breaks::{BreakFault, BreakRule};
pub use laws::{
    no_stops_is_the_rested_trip, one_rested_tour_answer, rested_tours_agree, rested_tours_are_found,
};
pub use plain_tours::plan_tour;
pub use tours::plan_rested_tour;
pub use trips::plan_rested;
