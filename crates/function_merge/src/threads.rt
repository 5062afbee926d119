// Compile-time check that this type is Send and Sync.
use crate::Merged;
use route_base::crosses_threads;

// Names the shared type once.
fn all_cross_threads() {
    crosses_threads::<Merged>();
}
