// Compile-time check that these types are Send and Sync.
use crate::{Access, Clause, Comparison, Conditional, ConditionalFault, Part, Parts, Word};
use route_base::crosses_threads;

// Compiles only if all of these types cross threads.
fn all_cross_threads() {
    crosses_threads::<Conditional>();
    crosses_threads::<Clause>();
    crosses_threads::<Parts>();
    crosses_threads::<Part>();
    crosses_threads::<Word>();
    crosses_threads::<Comparison>();
    crosses_threads::<Access>();
    crosses_threads::<ConditionalFault>();
}
