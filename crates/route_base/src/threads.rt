// Compile-time check that these types are Send and Sync.
use crate::{Bounds, FileBytes, Legs, OutOfMemory, Routes, Text, TimedNet};

/// Compiles exactly for the types that threads may share and hand over. It costs nothing.
pub fn crosses_threads<T: Send + Sync>() {}

// Compiles only if all of these types cross threads.
fn all_cross_threads() {
    crosses_threads::<(TimedNet, Bounds, Legs, Routes, Text, FileBytes, OutOfMemory)>();
}
