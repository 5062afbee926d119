//! The words of the command line: which command they are.
//!
//! The law is in `specs/`. `Forms` says which words have which form, and their values; `Splitting` how the words after a command's name
//! divide into positional words and options; `Usages` what a row of the table of commands is, and what words make by it; `Trips` has the words
//! of a trip. Each command has a file of its own, such as `Latest`, with its row and the command that its values make. `Commands` has the table,
//! and `command_of`, the command that words are.
//!
//! `read_invocation` answers exactly this, and `read_words` the same with all words side by side (`flat`). `splitting` divides the words, and
//! `options` finds the value of an option. `table` has a row for each command (`CommandName::row`), and one way for all of them (`read_row`): if the
//! words are as many as the row's places, they go to one simple command of `clap` in one order, the options with their values and then the positional
//! words. `clap` then fails only when it is out of memory (`refused` of `parse_line`). Each command has a file here too, such as `latest` (`generate`
//! for `gen`), which makes it from the words that `clap` gives back. `found` reads these in the forms of `forms`, and `trip_words` those of a trip.
//!
//! `limits` bounds the workers of a batch, and has the usual values of options; a number, rows and columns are those from which
//! `net_generator` draws a network (`IsDrawable`).
//!
//! `Inside`, `ClapCommands` and `Found` are no law: they have what the calls hand to one another, the commands as `clap` has them, and what a
//! command's function makes of the words that `clap` found.
//! `proofs/ClapWalk` is the walk of `clap` over words that begin with no dash, `proofs/Plain` shows that those of a split are such, and
//! `proofs/ClapLines` has the line of each command (`takes_row`). The rows of the commands with options are in `proofs/OptionRows`.
#![tactic(auto)]

mod bans;
mod batch;
mod breaks;
mod check;
mod clap_words;
mod commands;
mod explain;
mod flat;
mod forms;
mod found;
mod generate;
mod latest;
mod limits;
mod options;
mod plan;
mod reading;
mod splitting;
mod table;
mod tour;
mod trip_words;

pub use bans::Bans;
pub use batch::Batch;
pub use breaks::Breaks;
pub use check::Check;
pub use commands::{Invocation, Trip, WordsFault};
pub use explain::Explain;
pub use flat::Command;
pub use generate::Gen;
pub use latest::Latest;
pub use limits::{MOST_WORKERS, USUAL_DRIVE, USUAL_REST, USUAL_WORKERS};
pub use plan::Plan;
pub use reading::{read_invocation, read_words};
pub use tour::{RestedTour, Tour};
