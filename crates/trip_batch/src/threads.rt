// Compile-time check that these types are Send and Sync.
use crate::JobTexts;
use route_base::{JobText, crosses_threads};

// Compiles only if both types cross threads.
fn all_cross_threads() {
    crosses_threads::<JobTexts>();
    crosses_threads::<JobText>();
}
