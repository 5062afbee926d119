// Writes the lines of refusals.
ghost use Rattle.std.specs.Prelude.{◌≡◌, ◌++◌, OnOk, IfOk};
ghost use Rattle.plan_report.specs.Refusals.{fault_text, refusal_text_of};

use crate::Refusal;
use line_texts::{push_field, push_text};
use route_base::{BadInput, OutOfMemory};
use std::alloc::Global;

// Appends the words of a file's fault.
fn push_fault(out: &mut Vec<u8>, fault: BadInput) -> Result<(), OutOfMemory>
    ensures { OnOk result (out.new.items ≡ out.old.items ++ fault_text fault) }
{
    push_text(out, "input ")?;
    push_text(out, fault.file.label())?;
    push_field(out, " ", fault.row)?;
    push_text(out, " ")?;
    push_text(out, fault.cause.name())
}

/// The one line of a refusal. In constant time.
pub fn refusal_text(alloc: Global, refusal: Refusal) -> Result<Vec<u8>, OutOfMemory>
    ensures { IfOk result (λ v. v.items ≡ refusal_text_of refusal) }
{
    let mut out = Vec::new(alloc);
    push_text(&mut out, "refused ")?;
    match refusal {
        Refusal::Usage => push_text(&mut out, "usage")?,
        Refusal::Input(fault) => push_fault(&mut out, fault)?,
        Refusal::Request(fault) => {
            push_text(&mut out, "request ")?;
            push_text(&mut out, fault.name())?;
        }
    }
    push_text(&mut out, "\n")?;
    Ok(out)
}
