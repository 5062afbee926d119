// Sets of minutes.
ghost use Rattle.std.specs.Prelude.{◌≡◌, ◌≤◌, ◌||◌, ◌&&◌, ◌↔◌, IsTrue, not, nat_lt, ℕ, List, [], All, OnOk, OnErr, IfOk, take};
ghost use Rattle.route_base.specs.Runs.{any_has, has_minute, AreRuns};
ghost use Rattle.minute_sets.specs.Entries.{IsEntry};
ghost use Rattle.route_base.specs.declared.types.Run.{Run};

use crate::addition::add_all;
use crate::entries::entries_of;
use crate::merge::{add, merged};
use crate::split::split_before;
use crate::sweep::{Combination, combined};
use route_base::{Minute, OutOfMemory, Run, is_free};
use std::alloc::Global;
use std::marker::Model;

/// A set of minutes, which contracts see as its runs: they rise, do not touch, and none is empty.
pub struct MinuteSet {
    held: Vec<Run>,
}

impl Model for MinuteSet {
    ghost Value = { List Run };

    ghost view = { λ s. s.held.items };

    ghost invariant = { λ s. AreRuns s.held.items };
}

// By hand, so that the drops of its parts are proved here alone.
impl Drop for MinuteSet {
    fn drop(self) {
        let MinuteSet { held: _ } = self;
    }
}

impl MinuteSet {
    /// The minutes of any of the runs, which may come in any order, overlap, touch and be empty (`hi <= lo`). Takes
    /// n log n steps for n runs, and memory for 2 n.
    pub fn from_runs(alloc: Global, runs: &[Run]) -> Result<MinuteSet, OutOfMemory>
        ensures minutes { IfOk result (λ set. (t : ℕ) → any_has set t ≡ any_has runs.now t) }
        ensures runs { IfOk result AreRuns }
    {
        let mut sorted = Vec::from_slice(alloc, runs)?;
        sorted.sort_by_key(|run| run.lo)?;
        Ok(MinuteSet {
            held: merged(alloc, &sorted)?,
        })
    }

    /// The set without a minute. No memory.
    pub fn empty(alloc: Global) -> MinuteSet
        ensures { result ≡ [] }
    {
        MinuteSet {
            held: Vec::new(alloc),
        }
    }

    /// The set without a minute, in the memory of this one.
    pub fn cleared(self) -> MinuteSet
        ensures { result ≡ [] }
    {
        let MinuteSet { mut held } = self;
        held.clear();
        MinuteSet { held }
    }

    /// The minutes of the window, which may be empty (`hi <= lo`). Constant time; memory for one run.
    pub fn whole(alloc: Global, window: Run) -> Result<MinuteSet, OutOfMemory>
        ensures minutes { IfOk result (λ set. (t : ℕ) → any_has set t ≡ has_minute t window) }
        ensures runs { IfOk result AreRuns }
    {
        let mut set = MinuteSet::empty(alloc);
        set.append(window)?;
        Ok(set)
    }

    /// Adds the minutes of a run that begins where the last run of the set does or later; an empty run adds none. Constant time
    /// on average. Out of memory leaves the set as it was.
    pub fn append(&mut self, run: Run) -> Result<(), OutOfMemory>
        requires later { All (λ r. r.lo ≤ run.lo) self.old }
        ensures minutes { OnOk result ((t : ℕ) →
            any_has self.new t ≡ (any_has self.old t || has_minute t run)) }
        ensures runs { AreRuns self.new }
        ensures begins { OnOk result (All (λ r. r.lo ≤ run.lo) self.new) }
        ensures kept { OnErr result (self.new ≡ self.old) }
    {
        add(&mut self.held, run)
    }

    /// Takes the minutes before an end out of the set and returns them, in the memory of `spare`, whatever that holds. Linear in the
    /// number of runs; no memory but where `spare` grows. Out of memory leaves the set as it was.
    pub fn split_before(&mut self, end: Minute, spare: MinuteSet) -> Result<MinuteSet, OutOfMemory>
        ensures before { IfOk result (λ before. (t : ℕ) →
            any_has before t ≡ (any_has self.old t && nat_lt t end)) }
        ensures after { OnOk result ((t : ℕ) →
            any_has self.new t ≡ (any_has self.old t && not (nat_lt t end))) }
        ensures before_runs { IfOk result AreRuns }
        ensures runs { AreRuns self.new }
        ensures kept { OnErr result (self.new ≡ self.old) }
    {
        let MinuteSet { held: mut before } = spare;
        split_before(&mut self.held, end, &mut before)?;
        Ok(MinuteSet { held: before })
    }

    /// Adds the minutes of another set. A binary search finds the first run that doesn't end before the other set begins; those before
    /// it stay where they are. Linear in the other set's runs where there is none, constant time from there on where the other set is
    /// one run that touches that run alone, and else linear in the other set's runs and those from there on. Memory only where the set
    /// grows, and for the sweep of the last case. Out of memory leaves a prefix of the set's runs: it may have lost minutes, and has
    /// no new one.
    pub fn add_all(&mut self, alloc: Global, other: &MinuteSet) -> Result<(), OutOfMemory>
        ensures minutes { OnOk result ((t : ℕ) →
            any_has self.new t ≡ (any_has self.old t || any_has other.now t)) }
        ensures runs { AreRuns self.new }
        ensures prefix { OnErr result ((n : ℕ) × (self.new ≡ take n self.old)) }
    {
        add_all(alloc, &mut self.held, &other.held)
    }

    /// The minutes of either set. Linear in the number of runs of both, in time and memory.
    pub fn union(&self, alloc: Global, other: &MinuteSet) -> Result<MinuteSet, OutOfMemory>
        ensures minutes { IfOk result (λ set. (t : ℕ) →
            any_has set t ≡ (any_has self.now t || any_has other.now t)) }
        ensures runs { IfOk result AreRuns }
    {
        combined(alloc, &self.held, &other.held, Combination::Either)
    }

    /// The minutes of both sets. Linear in the number of runs of both, in time and memory.
    pub fn intersection(&self, alloc: Global, other: &MinuteSet) -> Result<MinuteSet, OutOfMemory>
        ensures minutes { IfOk result (λ set. (t : ℕ) →
            any_has set t ≡ (any_has self.now t && any_has other.now t)) }
        ensures runs { IfOk result AreRuns }
    {
        combined(alloc, &self.held, &other.held, Combination::Both)
    }

    /// The minutes of this set that the other does not have. Linear in the number of runs of both, in time and memory.
    pub fn minus(&self, alloc: Global, other: &MinuteSet) -> Result<MinuteSet, OutOfMemory>
        ensures minutes { IfOk result (λ set. (t : ℕ) →
            any_has set t ≡ (any_has self.now t && not (any_has other.now t))) }
        ensures runs { IfOk result AreRuns }
    {
        combined(alloc, &self.held, &other.held, Combination::OnlyFirst)
    }

    /// The minutes of the window that the set does not have. Linear in the number of runs, in time and memory.
    pub fn complement(&self, alloc: Global, window: Run) -> Result<MinuteSet, OutOfMemory>
        ensures minutes { IfOk result (λ set. (t : ℕ) →
            any_has set t ≡ (has_minute t window && not (any_has self.now t))) }
        ensures runs { IfOk result AreRuns }
    {
        entries_of(alloc, &self.held, window, 1)
    }

    /// The minutes from which on a stay of `minutes` minutes is within the window and avoids the set. Linear in the number of
    /// runs, in time and memory.
    pub fn entries(
        &self,
        alloc: Global,
        window: Run,
        minutes: u64,
    ) -> Result<MinuteSet, OutOfMemory>
        requires { 1 ≤ minutes }
        ensures minutes { IfOk result (λ set. (t : ℕ) →
            IsTrue (any_has set t) ↔ IsEntry self.now window minutes t) }
        ensures runs { IfOk result AreRuns }
    {
        entries_of(alloc, &self.held, window, minutes)
    }

    /// Whether the set has the minute. Logarithmic in the number of runs; no memory.
    pub fn contains(&self, t: Minute) -> bool
        ensures { result ≡ any_has self.now t }
    {
        !is_free(&self.held, t, 1)
    }

    /// The runs, at no cost.
    pub fn runs(&self) -> &[Run]
        ensures items { result.now ≡ self.now }
        ensures runs { AreRuns result.now }
    {
        self.held.as_slice()
    }

    /// The runs, handed over at no cost.
    pub fn into_runs(self) -> Vec<Run>
        ensures items { result.items ≡ self }
        ensures runs { AreRuns result.items }
    {
        let MinuteSet { held } = self;
        held
    }
}
