mod certificate_check_tests;
mod certificate_tests;
mod cost_functions_tests;
mod engines;
mod function_merge_tests;
mod itinerary_unpack_tests;
mod label_queue_tests;
mod nets;
mod other_nets;
mod plain_search_tests;
mod plan_certificate_tests;
mod plan_report_tests;
mod potentials_tests;

use std::process::Abort;

// Fails with the name of a case that isn't right.
fn expect_right<R: Abort>(rt: &R, is_right: bool, name: &str) {
    assert!(rt; is_right, "{name}");
}
