// Compile-time check that these types are Send and Sync.
use crate::{Files, Job, Jobs, Network, NetworkFault};
use route_base::crosses_threads;

// Compiles only if all of these types cross threads.
fn all_cross_threads() {
    crosses_threads::<(Files, Job, Jobs, Network, NetworkFault)>();
}
