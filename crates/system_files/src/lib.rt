//! The files and the standard output of the system, as the traits `Folder` and `Sink` of `route_base`: the trusted edge.
//!
//! No contract of the system says what a file holds or what an output took, so `specs/Untold` defines folders and sinks whose contents are
//! not told. What is proved is that each call counts exactly the fault that it answers, from 0 on.
#![tactic(auto)]

mod real_folder;
mod real_out;

pub use real_folder::RealFolder;
pub use real_out::RealOut;
