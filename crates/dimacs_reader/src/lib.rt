//! Reads a road graph in the text form of DIMACS (9th Implementation Challenge, shortest paths): one problem line
//! `p sp n m` and then m arcs `a u v w`, here with whole minutes.
//!
//! The law is in `specs/`: `Lines` (the lines of a file, and the meaning of a line), `Stated` (the statement of several lines),
//! `Faults` (the first fault of a file, with its line and cause) and `GraphModel` (the graph that the lines state, and the limits
//! of each graph). `read_graph` meets it for every list of bytes: it returns the graph of a file without a fault, and refuses
//! any other with its first fault. Only running out of memory can take the place of either. `next_line` gives lines one by one, for
//! readers of other files too. `plain_lines` reads the common form of an arc line in one pass over its bytes. `Inside` is no law: it
//! has the invariant of the builder, and says when a line is read off the front of a file.
#![tactic(auto)]

mod builder;
mod faults;
mod graph;
mod graph_file;
mod lines;
mod plain_lines;
mod threads;

pub use faults::GraphFault;
pub use graph::{Graph, GraphArc};
pub use graph_file::read_graph;
pub use lines::next_line;
