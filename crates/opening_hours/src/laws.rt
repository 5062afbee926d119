// Laws of the notation that need no call.
ghost use Rattle.std.specs.Prelude.{◌≡◌, ◌↔◌, ℕ, Some, List};
ghost use Rattle.opening_hours.specs.CanonicalTokens.{hours_text};
ghost use Rattle.opening_hours.specs.Hours.{IsHours, IsParsed};
ghost use Rattle.opening_hours.specs.Reading.{hours_of};
ghost use Rattle.opening_hours.specs.declared.types.HoursRule.{HoursRule as Rule};

/// The law that a text has at most one list of rules. The call does nothing.
pub fn one_reading()
    ensures { (text : List ℕ) (a b : List Rule) → IsHours text a → IsHours text b → a ≡ b }
{}

/// The law that the canonical text of parsed rules is read as these rules. The call does nothing.
pub fn canonical_reading()
    ensures { (rules : List Rule) → IsParsed rules → IsHours (hours_text rules) rules }
{}

/// The law that the function `hours_of` gives exactly the rules that a text has. The call does nothing.
pub fn computed_reading()
    ensures { (text : List ℕ) (rules : List Rule) →
        (hours_of text ≡ Some rules) ↔ IsHours text rules }
{}
