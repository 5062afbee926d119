// Laws of conditional values that need no call.
ghost use Rattle.std.specs.Prelude.{◌≡◌, ◌↔◌, ℕ, Some, List, option_map, option_and_then, slice_get};
ghost use Rattle.opening_hours.specs.Holidays.{HolidayLists};
ghost use Rattle.vehicle_classes.specs.VehicleModel.{VehicleModel};
ghost use Rattle.conditional_rules.specs.declared.conditional.Clause.{Clause};
ghost use Rattle.conditional_rules.specs.CanonicalText.{conditional_text};
ghost use Rattle.conditional_rules.specs.Conditions.{IsConditional, AreParsedClauses};
ghost use Rattle.conditional_rules.specs.Decisions.{decision, deciding_place};
ghost use Rattle.conditional_rules.specs.Reading.{conditional_of};

/// The law that a text has at most one list of clauses. The call does nothing.
pub fn one_reading()
    ensures { (text : List ℕ) (a b : List Clause)
        → IsConditional text a → IsConditional text b → a ≡ b }
{}

/// The law that the canonical text of parsed clauses is read as these clauses. The call does nothing.
pub fn canonical_reading()
    ensures { (clauses : List Clause) → AreParsedClauses clauses
        → IsConditional (conditional_text clauses) clauses }
{}

/// The law that the function `conditional_of` gives exactly the clauses that a text has. The call does nothing.
pub fn computed_reading()
    ensures { (text : List ℕ) (clauses : List Clause)
        → (conditional_of text ≡ Some clauses) ↔ IsConditional text clauses }
{}

/// The law that the access which decides is that of the clause at the deciding place. The call does nothing.
pub fn decides_at_its_place()
    ensures { (vehicle : VehicleModel) (holidays : HolidayLists) (day minute : ℕ)
        → (clauses : List Clause)
        → option_and_then (λ i. option_map (λ c. c.access) (slice_get clauses i))
        (deciding_place vehicle holidays day minute clauses)
        ≡ decision vehicle holidays day minute clauses }
{}
