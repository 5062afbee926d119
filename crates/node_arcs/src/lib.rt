//! The arcs at each node of a net: those that leave it (forward star), or those that come into it (backward star).
//!
//! The law is in `specs/Stars`: `AreArcsAt` says that each node has exactly the arcs with an end there, each once and by rising
//! number. It is proved at `NodeArcs::outgoing` and `NodeArcs::incoming`; `NodeArcs::of` reads the arcs of one node.
//!
//! All arc numbers are in one list, ordered by node, and each node has its place in it. `node_arcs` makes both by a counting sort:
//! it counts the arcs at each node, adds up the counts, which gives the place where the arcs of each node start, and writes each
//! arc, by rising number, to the next free place of its node. That is linear in nodes and arcs, in time and memory: two passes over
//! the arcs and one over the nodes, with no further list. `specs/Inside` is no law: it says what the passes have counted and written.
#![tactic(auto)]

mod links;
mod node_arcs;

pub use links::End;
pub use node_arcs::NodeArcs;
