mod calendar_days_tests;
mod conditional_rules_tests;
mod dimacs_reader_tests;
mod opening_hours_tests;
mod table_reader_tests;
mod vehicle_classes_tests;
mod zone_rules_tests;

use route_base::{Cause, OutOfMemory, TableFault};

// The fault of a record.
fn bad_row(row: u64, cause: Cause) -> TableFault {
    TableFault::BadRow { row, cause }
}

// Whether the text was printed, and is this one.
fn is_printed(printed: &Result<Vec<u8>, OutOfMemory>, canonical: &str) -> bool {
    match printed {
        Ok(text) => text.as_slice() == canonical.as_bytes(),
        Err(_) => false,
    }
}
