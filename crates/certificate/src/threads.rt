// Compile-time check that these types are Send and Sync.
use crate::{Certificate, CertificateFault};
use route_base::crosses_threads;

// Compiles only if both types cross threads.
fn all_cross_threads() {
    crosses_threads::<Certificate>();
    crosses_threads::<CertificateFault>();
}
