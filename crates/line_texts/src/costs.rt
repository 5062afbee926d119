// Appends costs.
ghost use Rattle.std.specs.Prelude.{◌≡◌, ◌++◌, OnOk, OnErr};
ghost use Rattle.line_texts.specs.Words.{thousandths_of, IsBegun};

use crate::numbers::push_number;
use route_base::OutOfMemory;

/// Appends a number of thousandths, as costs are counted: its whole part, a point and three digits. Linear in the digits, of which
/// there are 20 at most.
pub fn push_thousandths(out: &mut Vec<u8>, thousandths: u64) -> Result<(), OutOfMemory>
    ensures text { OnOk result (out.new.items ≡ out.old.items ++ thousandths_of thousandths) }
    ensures begun { OnErr result (IsBegun out.old.items (thousandths_of thousandths) out.new.items) }
{
    let part = [
        b'.',
        b'0' + (thousandths / 100 % 10) as u8,
        b'0' + (thousandths / 10 % 10) as u8,
        b'0' + (thousandths % 10) as u8,
    ];
    push_number(out, thousandths / 1000)?;
    out.extend_from_slice(&part)?;
    Ok(())
}
