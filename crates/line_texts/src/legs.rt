// Appends the plain lines of legs.
ghost use Rattle.std.specs.Prelude.{◌≡◌, ◌++◌, OnOk, OnErr};
ghost use Rattle.line_texts.specs.Words.{plain_leg_text, IsBegun};

use crate::numbers::{push_field, push_text};
use route_base::{Leg, OutOfMemory};

/// Appends the plain line of a leg: `drive` and the number of its arc, or `wait` and its minutes. In constant time on average.
pub fn push_plain_leg(out: &mut Vec<u8>, leg: Leg) -> Result<(), OutOfMemory>
    ensures text { OnOk result (out.new.items ≡ out.old.items ++ plain_leg_text leg) }
    ensures begun { OnErr result (IsBegun out.old.items (plain_leg_text leg) out.new.items) }
{
    match leg {
        Leg::Drive(arc) => push_field(out, "drive ", arc.0 as u64)?,
        Leg::Wait(minutes) => push_field(out, "wait ", minutes)?,
    }
    push_text(out, "\n")
}
