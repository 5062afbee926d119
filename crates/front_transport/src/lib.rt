//! Pareto fronts that are carried from one net to another.
//!
//! Some requests are answered by an engine on another net, which is built from the net and the request: a mirrored one
//! (`latest_departure`), one with a layer for each stop (`stop_tour`), one of states (`drive_breaks`). This crate has what they
//! share.
//!
//! The law is `specs/ParetoFronts`: a Pareto front of whatever can be achieved, under any order. The front of a request is one of
//! this form, by the law `fronts_are_pareto_fronts`. `specs/CheapArcs` says when no minute of an arc costs too much, so that the
//! costs over such nets fit.
//!
//! `specs/Inside` is no law. A front is carried along a correspondence between what is achieved here and there (`Carrying`); that
//! the image of a front is a front is proved in `proofs/Transport`, for all types, so no clause can state it. `proofs/` also has
//! common lemmas on nets that grow at the end of their lists (`Places`, `ListPlaces`, `NetParts`), and on walks (`Growing`).
#![tactic(auto)]

mod closed_lists;
mod laws;
mod limits;

pub use closed_lists::copied_lists;
pub use laws::fronts_are_pareto_fronts;
pub use limits::MOST_STATES;
