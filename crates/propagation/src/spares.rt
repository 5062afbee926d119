// Functions and sets that are done with, whose memory the next ones use.
use crate::ways::OutgoingArc;
use cost_functions::{CostFn, Piece};
use minute_sets::MinuteSet;
use route_base::OutOfMemory;
use std::alloc::Global;

/// The functions and sets of minutes that are done with, and memory for the pieces that a merge moves and for the arcs of a turn.
pub struct Spares {
    functions: Vec<CostFn>,
    sets: Vec<MinuteSet>,
    pub(crate) pieces: Vec<Piece>,
    pub(crate) ways: Vec<OutgoingArc>,
}

// By hand, so that the drops of its parts are proved here alone.
impl Drop for Spares {
    fn drop(self) {
        let Spares {
            functions: _,
            sets: _,
            pieces: _,
            ways: _,
        } = self;
    }
}

impl Spares {
    /// No spares yet. No memory.
    pub fn new(alloc: Global) -> Spares {
        Spares {
            functions: Vec::new(alloc),
            sets: Vec::new(alloc),
            pieces: Vec::new(alloc),
            ways: Vec::new(alloc),
        }
    }

    /// The last function that is done with; one without memory, if there is none.
    pub fn take(&mut self, alloc: Global) -> CostFn {
        match self.functions.pop() {
            Some(spare) => spare,
            None => CostFn::empty(alloc),
        }
    }

    /// Keeps a function that is done with.
    pub fn put(&mut self, spare: CostFn) -> Result<(), OutOfMemory> {
        self.functions.push(spare)?;
        Ok(())
    }

    /// The last set that is done with, whatever it holds; one without memory, if there is none.
    pub fn take_set(&mut self, alloc: Global) -> MinuteSet {
        match self.sets.pop() {
            Some(spare) => spare,
            None => MinuteSet::empty(alloc),
        }
    }

    /// Keeps a set that is done with.
    pub fn put_set(&mut self, spare: MinuteSet) -> Result<(), OutOfMemory> {
        self.sets.push(spare)?;
        Ok(())
    }
}
