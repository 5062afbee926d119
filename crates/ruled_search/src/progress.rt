// The progress of the search.
use cost_functions::CostFn;
use label_queue::LabelQueue;
use minute_sets::MinuteSet;
use propagation::{EntrySets, Spares};
use route_base::Pair;
use ruled_states::Table;

/// The states by number, for each a function and pending minutes, the pairs so far with their borders, and the numbers of states with pending
/// minutes by key, in a queue with room for as many states as this.
pub struct Progress {
    pub table: Table,
    pub functions: Vec<CostFn>,
    pub pending: Vec<MinuteSet>,
    pub pairs: Vec<Pair>,
    pub borders: Vec<Pair>,
    pub queue: LabelQueue,
    pub room: u32,
}

// By hand, so that the drops of its parts are proved here alone.
impl Drop for Progress {
    fn drop(self) {
        let Progress {
            table: _,
            functions: _,
            pending: _,
            pairs: _,
            borders: _,
            queue: _,
            room: _,
        } = self;
    }
}

/// The sets of minutes at which drives can begin, and what is done with.
pub struct Tools {
    pub sets: EntrySets,
    pub spares: Spares,
}

// By hand, so that the drops of its parts are proved here alone.
impl Drop for Tools {
    fn drop(self) {
        let Tools { sets: _, spares: _ } = self;
    }
}
