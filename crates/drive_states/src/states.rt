// The states that were found, each once and by number.
ghost use Rattle.std.specs.Prelude.{◌≡◌, ◌≢◌, ◌+◌, ◌<◌, ◌^◌, ◌≤◌, Some, None, [], length, AllPairs, Contains, IfOk, OnOk, OnErr, IfSome, IsNone};
ghost use Rattle.drive_states.specs.Words.{at_number, Grows};
ghost use Rattle.route_base.specs.declared.limits.TheConstants.{DAY_MINUTES};

use crate::number_rows::NumberRows;
use crate::rule::State;
use route_base::OutOfMemory;
use std::alloc::Global;
use std::marker::Model;

/// States, numbered from 1 in the order in which they were found. Their numbers are by node and minutes, so that they are looked up
/// without a search.
pub struct States {
    held: Vec<State>,
    numbers: NumberRows,
}

impl Model for States {
    ghost use Rattle.std.specs.Prelude.{List};
    ghost use Rattle.drive_states.specs.declared.rule.State.{State};
    ghost use Rattle.drive_states.specs.Inside.Numbering.{AreNumbered};

    ghost Value = { List State };

    ghost view = { λ a. a.held.items };

    ghost invariant = { λ a. AreNumbered a.numbers a.held.items };
}

// By hand, so that the drops of its parts are proved here alone.
impl Drop for States {
    fn drop(self) {
        let Self { held, numbers } = self;
    }
}

impl States {
    /// No states.
    #[tactic(auto, using(crate::proofs::RowPlaces::none_numbered))]
    pub fn new(alloc: Global) -> States
        ensures { result ≡ [] }
    {
        States {
            held: Vec::new(alloc),
            numbers: NumberRows::new(alloc),
        }
    }

    /// The number of states.
    #[tactic(auto, using(crate::proofs::RowPlaces::numbered_distinct))]
    pub fn len(&self) -> usize
        ensures value { result ≡ length self.now }
        ensures distinct { AllPairs (λ x y. x ≢ y) self.now }
    {
        self.held.len()
    }

    /// All states.
    pub fn as_slice(&self) -> &[State]
        ensures { result.now ≡ self.now }
    {
        self.held.as_slice()
    }

    /// The number of the state, which is added where it is new. In constant time on average.
    pub fn number_of(&mut self, state: State) -> Result<u32, OutOfMemory>
        requires small { length self.old + 1 < 2 ^ 32 }
        requires driven { state.driven ≤ DAY_MINUTES }
        ensures number { OnOk result (Grows self.old self.new state) }
        ensures at { IfOk result (λ n. at_number self.new n ≡ Some state) }
        ensures kept { OnErr result (self.new ≡ self.old) }
    {
        let row = state.node.0 as usize;
        let place = state.driven as usize;
        let known = self.numbers.number(row, place);
        if known > 0 {
            return Ok(known);
        }
        self.numbers.make_room(row, place)?;
        self.held.push(state)?;
        let number = self.held.len() as u32;
        self.numbers.set(row, place, number);
        Ok(number)
    }

    /// The number of the state; `None` exactly where it isn't among these. In constant time.
    #[tactic(auto, using(crate::proofs::RowPlaces::state_numbered, crate::proofs::RowPlaces::not_numbered))]
    pub fn find(&self, state: State) -> Option<u32>
        ensures at { IfSome result (λ n. at_number self.now n ≡ Some state) }
        ensures none { IsNone result → Contains self.now state → ⊥ }
    {
        let number = self
            .numbers
            .number(state.node.0 as usize, state.driven as usize);
        if number == 0 {
            return None;
        }
        Some(number)
    }
}
