//! The planning problem, and the traits through which the planner meets the outside world.
//!
//! Lorries drive over arcs that are closed at certain minutes, and wait at rated nodes alone, except at minutes at which waiting
//! there is shut. A trip's answer is the Pareto front of its arrivals and costs (after Kleff, Schulz, Wagenblatt and Zeitz,
//! SEA 2020, in whole minutes).
//!
//! The law is in `specs/`. The problem: `Setting` (roads, closed minutes, weights), `Itinerary` (lawful steps), `Legs`,
//! `FirstItinerary` (which itinerary of a pair is given), `Front` (the Pareto front, and right routes), `Net` (a timed net as a
//! setting), `Matching` (settings that agree within a window), `Open`, `Runs` and `Time` (minutes). The outside: `Contents`,
//! `FolderState`, `SinkState`, `Counts`, `WholeFile`, `MemoryFiles` (the objects in memory), `Statuses`, `Causes` and `Labels`
//! (faults and their words). Texts: `Digits` and `Forms` (numbers, names, minutes and weights).
//!
//! Workers say through `Gate` that they begin a piece of work; no law speaks of it.
//!
//! It is met here by `replay`, `read_all`, `is_free`, the readers of forms and the objects in memory; the law of a search is a
//! clause of the trait `FrontSearch`. A request has at most one right answer, by the law `one_answer`; over a well-formed net whose
//! costs fit it has one, by the law `some_answer`. `Replay` says where a replay fails. `Relaxing` and `StepsBack` are no law: they
//! are the invariants that all searches share, and `proofs/` has their common lemmas (`Walking`, `Waiting`, `Covering`, `Fronts`,
//! `LegLists`, `GoingBack`).
#![tactic(auto)]

mod answers;
mod bounds;
mod digits;
mod faults;
mod folder;
mod forms;
mod front_search;
mod gates;
mod itinerary;
pub mod limits;
mod listing;
mod matching;
mod memory;
mod net;
mod runs;
mod sink;
mod split;
mod status;
mod text;
mod threads;
mod types;
mod whole_file;

pub use answers::{one_answer, some_answer};
pub use bounds::Bounds;
pub use digits::{read_number, read_plain_number};
pub use faults::{BadInput, Cause, FileKind, OutOfMemory, RequestFault, TableFault};
pub use folder::{Folder, PartError};
pub use forms::{is_blank, is_name_field, read_minute, read_table_number, read_weight};
pub use front_search::FrontSearch;
pub use gates::{Gate, NoGate};
pub use itinerary::{NotLawful, replay};
pub use listing::Listing;
pub use matching::settings_agree;
pub use memory::dripping::DripFolder;
pub use memory::folders::{FileList, MemFolder, Ordinals, SureFolder};
pub use memory::sinks::{MemSink, SureSink};
pub use net::{TimedNet, net_is_good};
pub use runs::is_free;
pub use sink::{Sink, WriteError};
pub use split::cut;
pub use status::Status;
pub use text::Text;
pub use threads::crosses_threads;
pub use types::{
    ArcId, Bound, Cost, FileBytes, Form, JobText, Leg, Legs, Minute, NodeId, Pair, Park, Request,
    Route, Routes, Run, TimedArc,
};
pub use whole_file::{ReadAllFault, read_all};
