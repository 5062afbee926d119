//! Reads a road network from the bytes of its files: a graph, and tables (csv, RFC 4180). It also reads a table of jobs, the trips of a
//! batch.
//!
//! The law is in `specs/`. A module for each table of this crate says its schema and what its rows state: `Rules`, `Closures`, `Ratings`,
//! `Parking` and `Tolls`, each over `Schema` of `table_reader`. The others are read by libraries below: zones, areas, roads and holidays by
//! `area_tables`, and vehicles by `vehicle_classes`. `NetworkModel` says what a network is, `NetworkFiles` which network all files
//! state together and what the first fault of their contents is, `Access` which access an arc gives a vehicle at an instant, and
//! `RoadSetting` the setting in which trips over a network are planned. It is met by `read_network` and the calls of `Network`.
//!
//! `Jobs` is the law of `read_jobs`: which jobs a table of jobs states, its schema, and the instants of its trips. A table of jobs is read
//! without a network, so no vehicle and no node is looked up.
//!
//! `Files` has the bytes of a network's files by their kinds, and is made by `Files::new` and `put`.
//!
//! `Parks` says how nodes share timetables, as `Network::parks` hands them out.
//!
//! The other modules are machinery: `RuleLists` and `ParkRows` have rules and parks while they are read, `NetworkParts` is how a network
//! is held, `ClosureLists` how its closures are, and `OwnKeys` how it is told which arcs have rules of their own; `Refusals` are words
//! for contracts.
//!
//! A source file has all of one table: its schema in code, a row, the state, and the call that reads it. `area_files` and `vehicle_file`
//! call the libraries below. The tests are in the crate `network_tests`.
#![tactic(auto)]

mod area_files;
mod closure_lists;
mod closures;
mod faults;
mod files;
mod jobs;
mod laws;
pub mod limits;
mod network;
mod network_files;
mod open_parks;
mod parking;
mod parks;
mod ratings;
mod rules;
mod threads;
mod tolls;
mod vehicle_file;

pub use faults::NetworkFault;
pub use files::Files;
pub use jobs::{Job, Jobs, Name, read_jobs};
pub use laws::each_row_has_its_job;
pub use network::Network;
pub use network_files::read_network;
pub use open_parks::is_wait_open;
pub use parks::{Parks, RatedNode};
