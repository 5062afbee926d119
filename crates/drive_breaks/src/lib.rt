//! Trips with driver breaks: the Pareto front of arrival and cost over the itineraries that keep a break rule.
//!
//! The rule is one of Regulation (EC) 561/2006, Article 7: at most so many minutes of driving since the last break, which is an
//! unbroken wait of so many minutes. Split breaks and daily rest are no part of it. The law is `AreRightRested` of `specs/Rested`,
//! a clause of `plan_breaks`: the pairs are the Pareto front of all lawful itineraries that keep the rule, and each pair has the legs
//! of one. `specs/StateSize` of `drive_states` says what the states of a trip are, and when there are too many. Both are the same
//! over settings that agree (`rested_trips_agree`). The rule is about the stretch since the last break, and there is always exactly
//! one (`one_stretch`). `specs/RestedOrder` orders the itineraries of a pair: of two just one comes before the other
//! (`itineraries_are_ordered`), so that there is at most one answer with the first itinerary of each pair (`one_rested_answer`).
//!
//! `plan_rested` of `rested_tours` answers by the search over states, without a net of them, and each of its pairs has the first itinerary;
//! `plan_breaks` is the plain way, of which no clause says which itinerary of a pair it tells.
//!
//! A state is a node and the minutes driven since the last break; `drive_states` finds all states and the ways between them, or
//! that there are too many. `states_as_net` makes a net in which each state is a node, and each drive and each break an arc; one
//! further node, which is entered by a copy of each drive to the goal, is the goal of that net. An engine's front of that net is the
//! front (`rested_trips`), and `sources` turns its legs into legs of the net.
//!
//! `specs/Inside` is no law. `WithinRule` has the rule in the form that the proof keeps, since the start or *some* break: it is the
//! same by `proofs/LastBreak`. `StateNet` says what the net over states is, and `Unpacking` what its steps, legs and routes are in
//! the net below. In `proofs/`, `SoundBreaks` reads a walk over states as one of that net, `FoundBreaks` goes the other way, and
//! `BreakFronts` puts them together, by `front_transport`; `RestedOrders` is about the order.
#![tactic(auto)]

mod laws;
mod rested_trips;
mod sources;
mod states_as_net;

pub use drive_states::{BreakFault, BreakRule};
pub use laws::{itineraries_are_ordered, one_rested_answer, one_stretch, rested_trips_agree};
pub use rested_trips::plan_breaks;
