// Compile-time check that these types are Send and Sync.
use crate::{Areas, Zones};
use route_base::crosses_threads;

// Names each shared type once.
fn all_cross_threads() {
    crosses_threads::<Areas>();
    crosses_threads::<Zones>();
}
