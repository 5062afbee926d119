//! The states of a trip with driver breaks: all of them, or that they are too many.
//!
//! A state is a node and the minutes driven since the last break. The law is `HasTooManyStates` of `specs/StateSize`, which says what
//! the states of a trip are, and when there are too many; `explore` and `has_too_many_states` meet it both ways. It is the same over
//! settings that agree (`states_agree`).
//!
//! `exploration` finds all states and the ways between them, or that there are too many; `states` numbers them. `state_count` marks
//! the states as bits, in rows of minutes by node (`marks`, `bit_rows`, `bits`), node after node from a queue (`node_queue`), and
//! counts them with the drives and breaks that leave them. `specs/Inside` is no law: `StateSearch` says what the search keeps, and what
//! it found, `BitRows` what a row of bits holds, and `StateMarks` what the marks keep.
#![tactic(auto)]

mod bit_rows;
mod bits;
mod exploration;
mod laws;
mod marks;
mod node_queue;
mod number_rows;
mod rule;
mod state_count;
mod states;

pub use exploration::{Explored, Plan, explore};
pub use laws::states_agree;
pub use rule::{BreakFault, BreakRule, State, Way};
pub use state_count::has_too_many_states;
pub use states::States;
