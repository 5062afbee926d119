//! Parts of the lines that the planner writes: texts, numbers in decimal digits, costs in thousandths, and the plain line of a leg.
//!
//! The law is in `specs/`: `Costs` has the text of a cost, and `Legs` the plain line of a leg; a number's digits are `decimal` of std.
//! Each call appends exactly its text to a list of bytes, and reserves no other memory. Out of memory is its only error. The bytes then
//! end with the beginning of the text (`Begun`): nothing of it, where the text is one word or number.
#![tactic(auto)]

mod costs;
mod legs;
mod numbers;

pub use costs::push_thousandths;
pub use legs::push_plain_leg;
pub use numbers::{push_field, push_number, push_text};
