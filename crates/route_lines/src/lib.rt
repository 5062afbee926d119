//! Routes of any kind in plain lines: how many there are, and then each with its legs.
//!
//! The law is `specs/RouteLines`: a kind of routes brings the lines of each, by the trait `PlainLines`, and `plain_routes` writes them all.
//! Routes of the base begin with their arrival; those of other kinds, such as latest departures and tours, are in the crates that find
//! them. Out of memory is the only error.
#![tactic(auto)]

mod base_routes;
mod lines;

pub use lines::{PlainLines, plain_routes, push_each, push_route_line};
