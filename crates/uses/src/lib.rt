//! Proved callers of the libraries: they show that the contracts can be used from outside.
//!
//! `open_roads` asks opening hours for an instant of a zone, `clocks` reads local time, `rules` asks a conditional value for the
//! access of a vehicle, `drives` asks whether an arc is open, `trips` judges an itinerary, and `lockers` reads a table of its own. `plans`
//! plans a trip over a network, and `fronts` makes one from the bytes of files, and prints the front of a trip. `nets` makes the net of a
//! trip, over which `departures` asks how late it may leave, `stops` plans a tour, and `rests` a trip with driver breaks; `reasons` says why
//! an itinerary is unlawful, and `judgements` takes a front from a certificate that somebody else wrote. Each call says over the
//! definitions of the library what it answers. The crate's own are a ban at an instant (`Words`), the schema of its table (`Lockers`), and
//! what the net of a trip is (`Nets`).
#![tactic(auto)]

mod clocks;
mod departures;
mod drives;
mod fronts;
mod judgements;
mod lockers;
mod nets;
mod open_roads;
mod plans;
mod reasons;
mod rests;
mod rules;
mod stops;
mod trips;

pub use clocks::clock_shows;
pub use departures::late_departures;
pub use drives::is_open_for;
pub use fronts::{front_text, network_of};
pub use judgements::certified_routes;
pub use lockers::{Codes, read_lockers};
pub use nets::trip_net;
pub use open_roads::is_banned;
pub use plans::plan_trip;
pub use reasons::explanation_of;
pub use rests::rested_trip;
pub use rules::access_given;
pub use stops::tour_of;
pub use trips::is_lawful;
