// Compile-time check that these types are Send and Sync.
use crate::{NameIndex, NumberedTable, RowFault};
use route_base::crosses_threads;

// Names each shared type once.
fn all_cross_threads() {
    crosses_threads::<NameIndex<u64>>();
    crosses_threads::<NumberedTable<NameIndex<u64>, u64>>();
    crosses_threads::<RowFault>();
}
