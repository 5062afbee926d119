//! Reads tables of comma-separated values (RFC 4180) row by row, each against its own schema.
//!
//! The law is in `specs/`: `Records` (the records of a file), `Schema` (the headers, the most rows and the causes that a table
//! may have, and its first fault), `Refusals` (how faults are answered), `NameIndex` (values by name) and `ByNumber` (tables of
//! a number and a field that gives its value). `read_table` meets the first three over any `Table`; `NameIndex` and `NumberedTable` meet the others.
//!
//! A table is added to a program by a type that implements `Table`: it says its headers, its limit, what is wrong with a row
//! after others, and how its state changes by a row that has no fault.
#![tactic(auto)]

mod by_number;
mod faults;
mod fields;
mod name_index;
mod records;
mod table;
mod threads;

pub use by_number::{FieldValues, NumberedTable};
pub use faults::RowFault;
pub use fields::{field, four_fields, has_fields, three_fields, two_fields};
pub use name_index::NameIndex;
pub use table::{Table, read_table};
