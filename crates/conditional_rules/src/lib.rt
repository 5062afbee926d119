//! Conditional values of access keys: a list of clauses that is read from a text, and the access that it gives a vehicle.
//!
//! The notation is a subset of OpenStreetMap's conditional restrictions (their page on the OpenStreetMap wiki). A clause is
//! `value @ (condition)`, and `;` stands between clauses. A condition has parts with `AND` or `and` between them, within
//! parentheses or without any. A part is a comparison of the vehicle's weight, axleload, height, width, length or axles with a
//! number (`weight>7.5`), a flag in lower case letters and underscores (`articulated`), or opening hours (`Mo-Fr 06:00-09:00`),
//! which stand within parentheses where they have a semicolon. Whatever is outside the subset is refused and never ignored.
//! One rule is this project's own: each value of an access key counts as one of three accesses (`Free`, `Barred`, `Purpose`).
//! Agreement with other evaluators of the notation isn't claimed.
//!
//! The law is in `specs/`. `Accesses` gives the access of each value, `Cutting` says how a text is cut at its marks,
//! `Comparisons` which texts compare a size, and `Conditions` puts them together as `IsConditional`, one case for each form:
//! `parse` meets it, and no text has two lists of clauses (`one_reading`). `Reading` is the same as a function, `conditional_of`:
//! it gives exactly the clauses that a text has (`computed_reading`). `CanonicalText` is the canonical text, met by
//! `print`: it is read as the same clauses (`canonical_reading`). `Decisions` says which clause decides: the last whose
//! parts all hold for the vehicle at a minute, where a size that isn't known compares with no value. `deciding` gives its place and
//! `decide` its access; that these agree is the law `decides_at_its_place`.
#![tactic(auto)]

mod access;
mod comparisons;
mod conditional;
mod cutting;
mod decisions;
mod faults;
mod laws;
mod parser;
mod parts;
mod printer;
mod threads;

pub use access::{Access, lets_in, read_value};
pub use conditional::{Clause, Comparison, Conditional, Part, Parts, Word, parse};
pub use decisions::{comparison_holds, decide, deciding};
pub use faults::ConditionalFault;
pub use laws::{canonical_reading, computed_reading, decides_at_its_place, one_reading};
pub use printer::print;
