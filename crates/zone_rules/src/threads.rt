// Compile-time check that these types are Send and Sync.
use crate::{Wall, Zone, ZoneFault, ZoneRow};
use route_base::crosses_threads;

// Compiles only if all these types cross threads.
fn all_cross_threads() {
    crosses_threads::<Zone>();
    crosses_threads::<ZoneRow>();
    crosses_threads::<Wall>();
    crosses_threads::<ZoneFault>();
}
