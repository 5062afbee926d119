// Hours, and the reading of their texts.
ghost use Rattle.std.specs.Prelude.{◌≡◌, ◌≤◌, List, IfOk, length, option_map, slice_get};
ghost use Rattle.std.specs.Result.{IsErrOf};
ghost use Rattle.opening_hours.specs.declared.types.HoursRule.{HoursRule as Rule};
ghost use Rattle.opening_hours.specs.Hours.{IsHours, IsParsed};

use crate::faults::HoursFault;
use crate::parser::rules::rules;
use crate::tokenizer::cut;
use crate::types::HoursRule;
use route_base::Listing;
use std::alloc::Global;
use std::marker::Model;

/// Opening hours, which contracts see as the list of their rules. They are made by `parse` alone, and have one rule at least.
pub struct Hours {
    rules: Listing<HoursRule>,
}

impl Model for Hours {
    ghost use Rattle.std.specs.Prelude.{List};
    ghost use Rattle.opening_hours.specs.declared.types.HoursRule.{HoursRule};
    ghost use Rattle.opening_hours.specs.Hours.{IsParsed};

    ghost Value = { List HoursRule };

    ghost view = { λ a. a.rules };

    ghost invariant = { λ a. IsParsed a.rules };
}

// By hand, so that the drops of its parts are proved here alone.
impl Drop for Hours {
    fn drop(self) {
        let Hours { rules: _ } = self;
    }
}

impl Hours {
    /// The number of rules, one at least.
    pub fn len(&self) -> usize
        ensures value { result ≡ length self.now }
        ensures some { 1 ≤ result }
    {
        self.rules.len()
    }

    /// The rule at place i from 0; `None` exactly where i isn't below the length.
    pub fn get(&self, i: usize) -> Option<&HoursRule>
        ensures { option_map (λ r. r.now) result ≡ slice_get self.now i }
    {
        self.rules.get(i)
    }

    /// The rules, in their order.
    pub(crate) fn rules(&self) -> &[HoursRule]
        ensures same { result.now ≡ self.now }
        // Hours come from a text.
        ensures read { IsParsed self.now }
    {
        self.rules.as_slice()
    }
}

/// The rules of a text of hours. Linear in the text's length, in time and memory.
///
/// `NotHours` comes where the text isn't in the crate's notation, and so has no rules; `OutOfMemory` comes where memory runs out.
pub fn parse(alloc: Global, text: &[u8]) -> Result<Hours, HoursFault>
    // The text has these rules.
    ensures found { IfOk result (λ hours. IsHours text.now hours) }
    // It has no others.
    ensures only { IfOk result (λ hours. (rules : List Rule) → IsHours text.now rules → rules
        ≡ hours) }
    // A text that is refused has none.
    ensures none { IsErrOf result HoursFault.NotHours → (rules : List Rule)
        → IsHours text.now rules → ⊥ }
{
    let tokens = cut(alloc, text)?;
    let rules = rules(alloc, tokens.as_slice())?;
    Ok(Hours { rules })
}
