//! The table engine: a label-setting search with a cost for each node and each minute from the departure to the horizon.
//!
//! The law of the engine is `IsRight` of `route_base`, a clause of the trait `FrontSearch`: the pairs are the Pareto front of
//! all lawful itineraries, and each route has the legs of its pair's first itinerary. It is proved here for `TableEngine`. The law
//! of `values` is `AreValues` of `specs/Values`: for each node and minute the least cost at which lawful steps lead there, and
//! nothing where none do.
//!
//! Each step of an itinerary takes time, so the minutes are taken in order, and a minute's labels are final when it is
//! processed. `search` holds a request over a net with its forward and backward star (`node_arcs`); `forward` relaxes all
//! steps from all minutes; `engine` reads the front from the goal's column of the table (`cost_table`); `reconstruct` finds
//! the first itinerary of each pair backwards, and `legs` puts its steps together (`push_leg` of `tidy_legs`);
//! `node_points` reads all columns.
//!
//! `specs/Inside` is no law. It has the three facts that the proof keeps (`Costs`): each label but the first comes by a lawful
//! step, at exactly its cost, from an earlier minute (`ComesBySteps`); the steps of a minute change later minutes alone
//! (`ChangesLater`); and every step from an earlier minute is relaxed (`IsRelaxedBefore`). `Soundness`, `CostTable`,
//! `Predecessors` and `Routes` name the rest; `Words` passes on the words of the clauses.
#![tactic(auto)]

mod cost_table;
mod engine;
mod forward;
mod legs;
mod node_points;
mod reconstruct;
mod search;

pub use engine::TableEngine;
pub use node_points::{NodePoints, Points, values};
