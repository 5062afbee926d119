// A law of the definitions that needs no call.
ghost use Rattle.std.specs.Prelude.{◌↔◌, IsTrue, ℕ, List};
ghost use Rattle.opening_hours.specs.Holidays.{HolidayLists};
ghost use Rattle.opening_hours.specs.Coverage.{IsCovered, is_covered};
ghost use Rattle.opening_hours.specs.declared.types.HoursRule.{HoursRule};

/// The law that a local minute passes the test `is_covered` exactly where the rules cover it. The call does nothing.
pub fn covered_exactly()
    ensures { (rules : List HoursRule) (holidays : HolidayLists) (day minute : ℕ) →
        IsTrue (is_covered rules holidays day minute) ↔ IsCovered rules holidays day minute }
{}
