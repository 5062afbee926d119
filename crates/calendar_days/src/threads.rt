// Compile-time check that these types are Send and Sync.
use crate::{CivilDate, NotADate, NotAnInstant, Weekday};
use route_base::crosses_threads;

// Compiles only if all these types cross threads.
fn all_cross_threads() {
    crosses_threads::<CivilDate>();
    crosses_threads::<Weekday>();
    crosses_threads::<NotADate>();
    crosses_threads::<NotAnInstant>();
}
