//! Tests of the libraries of the search, of certificates and of reports, as a stranger calls them. Each library's tests are in a module
//! by its name, but those of latest departures, tours and breaks in `other_nets`; `nets` makes the net of several tests, which
//! `specs/WorkedNet` writes out.
//!
//! `engines` has the tests that the two engines agree: `TableEngine` of `plain_search`, which keeps a label for each node and minute, and
//! `FunctionEngine` of `itinerary_unpack`, which keeps cost functions, find the same pairs and the same legs on the same nets. Both are proved
//! to find the Pareto front with the first itinerary of each pair, so they agree by their contracts wherever memory suffices; the tests try
//! what the compiler made of them, on nets whose pairs were worked out by hand and on 100,000 random ones, whose numbers `specs/SmallNets`
//! bounds. They compare pairs by `have_same_pairs`, the one call of this crate, which tells exactly whether two lists of routes have the same.
#![tactic(auto)]

mod pairs;
#[cfg(test)]
mod tests;

pub use pairs::have_same_pairs;
