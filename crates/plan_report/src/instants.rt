// Appends instants.
ghost use Rattle.std.specs.Prelude.{◌≡◌, ◌++◌, OnOk};
ghost use Rattle.calendar_days.specs.Texts.{instant_text_of};
ghost use Rattle.route_base.specs.Time.{IsInstant};

use calendar_days::instant_text;
use route_base::{Minute, OutOfMemory};

/// Appends an instant as a text.
pub fn push_instant(out: &mut Vec<u8>, t: Minute) -> Result<(), OutOfMemory>
    requires { IsInstant t }
    ensures { OnOk result (out.new.items ≡ out.old.items ++ instant_text_of t) }
{
    out.extend_from_slice(&instant_text(t))?;
    Ok(())
}
