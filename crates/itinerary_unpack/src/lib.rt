//! The itineraries of what a search has found: path reconstruction without parent pointers.
//!
//! `unpack` walks back from a pair. At each node and minute it looks for the step by which exactly the known cost comes: a wait
//! where one does, and it is taken back to the first minute of the piece at once; else the drive over the arc of the smallest number.
//! Minutes fall, so the walk ends at the start. All that a search finds has every way to its pairs (`HasEveryWay`), so no lawful
//! itinerary of the pair is passed over, and the one that is found is the first.
//!
//! The law is in `route_base`: `Achieves`, `HasNoNeighbouringWaits` and `IsFirst`, proved at `unpack`, and `IsRight`, the clause of the
//! trait `FrontSearch`, proved for `FunctionEngine`, which searches and unpacks each pair by `routes_of`, and at `front_over`, by which
//! several requests share the arcs of one net by node (`AreSearchArcs` of `specs/SearchArcs`). That costs fit, as the engine requires
//! (`CostsFit`), is the law `costs_fit` over nets in which no minute is dear. `unpack` and `routes_of` are called with a request that
//! the finding answers (`IsAnswered` of `specs/Answered`). `specs/Inside` is no law: it says what a leg that is found leads from, and
//! what the legs found so far lead to.
#![tactic(auto)]

mod back;
mod engine;
mod laws;
mod routes;
mod shared_arcs;
mod solved;
mod sources;

pub use back::{unpack, unpack_over};
pub use engine::FunctionEngine;
pub use laws::costs_fit;
pub use routes::routes_of;
pub use shared_arcs::{SearchArcs, front_over, search_arcs};
