//! How late one may leave: the Pareto front of departure and cost, for an arrival by a deadline.
//!
//! The law is `AreRightLate` of `specs/LateFront`, a clause of `latest`: the pairs of departure and cost are the late front, that is the
//! Pareto front of all lawful itineraries that leave at or after the earliest departure, and each has the legs of the first one that leaves
//! then, so that there is at most one right answer (`one_late_answer`). The itineraries are those of `route_base`, with another departure.
//! `late_text` writes them as `specs/LateText` says. By the law `late_routes_agree`, settings of which one stands for the other have the
//! same right late routes.
//!
//! `mirror` builds a net that is mirrored in time: minute t becomes a fixed sum less t, each arc is turned round, and a further
//! node, at which waiting is free, leads to the goal by an arc of one minute, the gate. An itinerary from that node to the origin is
//! a late one, read from its end. So an engine's front of the mirrored net is the late front (`departures`). `routes` turns the legs
//! round, and leaves out those that lead from the goal back to it at no cost.
//!
//! `specs/Inside/Mirror` is no law: it says what the mirrored net is, and which legs are left out. In `proofs/`, `MirroredRuns` and
//! `MirroredNet` are about the net, `TurnedWalks` and `Gate` about walks over it, `OwnLegs` and `OwnWalks` about the legs that are
//! left out, `FirstLate` about the order, and `LateFronts` puts them together, by `front_transport`; `AgreeingLate` and `OneLate` have
//! the laws.
#![tactic(auto)]

mod departures;
mod laws;
mod mirror;
mod routes;
mod text;

pub use departures::latest;
pub use laws::{late_routes_agree, one_late_answer, some_late_answer};
pub use routes::{LateRoute, LateRoutes};
pub use text::late_text;
