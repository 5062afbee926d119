// Compile-time check that these types are Send and Sync.
use crate::{Graph, GraphFault};
use route_base::crosses_threads;

// Names each shared type once.
fn all_cross_threads() {
    crosses_threads::<Graph>();
    crosses_threads::<GraphFault>();
}
