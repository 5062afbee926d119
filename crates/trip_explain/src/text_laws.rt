// The laws of the texts that need no call.
ghost use Rattle.std.specs.Prelude.{◌≡◌, ◌↔◌, ℕ, List, Some, None};
ghost use Rattle.std.specs.List.{AllZip};
ghost use Rattle.route_base.specs.declared.types.Leg.{Leg};
ghost use Rattle.dimacs_reader.specs.Lines.{lines_of};
ghost use Rattle.trip_explain.specs.ItineraryFile.{IsLegLine, leg_of, bad_line_of, legs_of};

/// The law of a leg's line: the leg of a line is the one that the line writes. The call does nothing.
pub fn leg_lines_exactly()
    ensures { (line : List ℕ) (leg : Leg) → (leg_of line ≡ Some leg) ↔ IsLegLine line leg }
{}

/// The law of a file without a bad line: it has one leg for each line, in their order. The call does nothing.
pub fn each_line_has_its_leg()
    ensures { (bytes : List ℕ) → bad_line_of bytes ≡ None
        → AllZip IsLegLine (lines_of bytes) (legs_of bytes) }
{}
