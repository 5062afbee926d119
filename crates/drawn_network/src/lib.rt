//! The network that is drawn from a number: its four files, and the network that they state.
//!
//! The law is in `specs/`: `DrawnFiles` has the files of the generator, beside tables that are empty, and `DrawnNetwork` the network
//! that is drawn, with its graph from `DrawnGraph` and its closures and parks from `DrawnRows`. `draw_network` gives the bytes of the
//! files and the network that they state, as the reader of networks has it. That they have no fault, and state exactly the drawn
//! network, is the law `drawn_files_are_good`: it is proved over the definitions of the generator and of the reader alone.
#![tactic(auto)]

mod files;
mod laws;
mod network;

pub use laws::drawn_files_are_good;
pub use network::{DrawnNetwork, draw_network};
