// Conditional values as data, and the reading of their texts.
ghost use Rattle.std.specs.Prelude.{◌≡◌, ◌≤◌, List, Some, None, IfOk, length, option_map, slice_get};
ghost use Rattle.std.specs.Result.{IsErrOf};
ghost use Rattle.conditional_rules.specs.declared.conditional.Clause.{Clause as ClauseOf};
ghost use Rattle.conditional_rules.specs.Conditions.{IsConditional, AreParsedClauses};
ghost use Rattle.conditional_rules.specs.Reading.{conditional_of};

use crate::access::Access;
use crate::faults::ConditionalFault;
use crate::parser::read_clauses;
use opening_hours::Hours;
use route_base::Listing;
use std::alloc::Global;
use std::marker::Model;
use vehicle_classes::Quantity;

/// How a size of the vehicle is compared with a number.
#[derive(Clone, Copy, Debug, PartialEq, Eq)]
pub enum Comparison {
    Below,
    AtMost,
    Above,
    AtLeast,
    Equal,
}

/// A word, as its bytes.
pub type Word = Listing<u8>;

/// A part of a condition: a comparison with a size in kilograms, centimetres or axles, a flag of the vehicle, or hours.
#[derive(Drop)]
pub enum Part {
    Compare(Quantity, Comparison, u64),
    Flag(Word),
    Times(Hours),
}

/// Parts, as they are written.
pub type Parts = Listing<Part>;

/// A clause: the access that it gives where each of its parts holds.
#[derive(Drop)]
pub struct Clause {
    pub access: Access,
    pub parts: Parts,
}

/// A conditional value, which contracts see as the list of its clauses. It is made by `parse` alone, and has one clause at least.
pub struct Conditional {
    clauses: Listing<Clause>,
}

impl Model for Conditional {
    ghost use Rattle.std.specs.Prelude.{List};
    ghost use Rattle.conditional_rules.specs.declared.conditional.Clause.{Clause};
    ghost use Rattle.conditional_rules.specs.Conditions.{AreParsedClauses};

    ghost Value = { List Clause };

    ghost view = { λ a. a.clauses };

    ghost invariant = { λ a. AreParsedClauses a.clauses };
}

// By hand, so that the drops of its parts are proved here alone.
impl Drop for Conditional {
    fn drop(self) {
        let Conditional { clauses: _ } = self;
    }
}

impl Conditional {
    /// The number of clauses, one at least.
    pub fn len(&self) -> usize
        ensures value { result ≡ length self.now }
        ensures some { 1 ≤ result }
    {
        self.clauses.len()
    }

    /// The clause at place i from 0; `None` exactly where i isn't below the length.
    pub fn get(&self, i: usize) -> Option<&Clause>
        ensures { option_map (λ c. c.now) result ≡ slice_get self.now i }
    {
        self.clauses.get(i)
    }

    /// The clauses, in their order, at no cost.
    pub fn clauses(&self) -> &[Clause]
        ensures same { result.now ≡ self.now }
        // Clauses come from a text.
        ensures read { AreParsedClauses self.now }
    {
        self.clauses.as_slice()
    }
}

/// The clauses of a text of a conditional value. Linear in the text's length, in time and memory.
///
/// `NotConditional` comes where the text isn't in the crate's notation, and so has no clauses; `OutOfMemory` comes where memory runs out.
#[tactic(auto, using(crate::proofs::ComputedClauses::clauses_computed, crate::proofs::ComputedClauses::nothing_computed))]
pub fn parse(alloc: Global, text: &[u8]) -> Result<Conditional, ConditionalFault>
    // The text has these clauses.
    ensures found { IfOk result (λ conditional. IsConditional text.now conditional) }
    // It has no others.
    ensures only { IfOk result (λ conditional.
        (clauses : List ClauseOf) → IsConditional text.now clauses → clauses ≡ conditional) }
    // A text that is refused has none.
    ensures none { IsErrOf result ConditionalFault.NotConditional
        → (clauses : List ClauseOf) → IsConditional text.now clauses → ⊥ }
    // The function on lists gives these clauses.
    ensures value { IfOk result (λ clauses. conditional_of text.now ≡ Some clauses) }
    // It gives nothing for a text that is refused.
    ensures unread { IsErrOf result ConditionalFault.NotConditional → conditional_of text.now
        ≡ None }
{
    let clauses = read_clauses(alloc, text)?;
    Ok(Conditional { clauses })
}
