//! Makes a network from a number: a grid of roads with closures and parking areas, as the four files that the planner reads.
//!
//! The same number gives the same bytes on every machine, so a network is named by three numbers and anyone can plan on it.
//!
//! The law is in `specs/`: `Draws` has the generator and what is drawn for a list of numbers, `Layout` the roads, the closures and
//! the parking areas, and `Generated` the four texts. `generate` gives exactly these texts.
#![tactic(auto)]

mod draws;
mod files;
mod layout;
mod limits;
mod texts;

pub use files::{Generated, generate};
pub use limits::{LAST_NUMBER, MOST_GENERATED_NODES, MOST_LINES};
