// Appends texts, and numbers in decimal digits.
ghost use Rattle.std.specs.Prelude.{◌≡◌, ◌++◌, OnOk, OnErr, decimal};
ghost use Rattle.line_texts.specs.Words.{IsBegun};

use itoa::Buffer;
use route_base::OutOfMemory;

/// Appends a text. Linear in its bytes.
pub fn push_text(out: &mut Vec<u8>, text: &str) -> Result<(), OutOfMemory>
    ensures text { OnOk result (out.new.items ≡ out.old.items ++ text.now) }
    ensures kept { OnErr result (out.new.items ≡ out.old.items) }
{
    out.extend_from_slice(text.as_bytes())?;
    Ok(())
}

/// Appends a number in decimal digits, without leading zeros. Linear in the digits, of which there are 20 at most.
pub fn push_number(out: &mut Vec<u8>, number: u64) -> Result<(), OutOfMemory>
    ensures text { OnOk result (out.new.items ≡ out.old.items ++ decimal number) }
    ensures kept { OnErr result (out.new.items ≡ out.old.items) }
{
    let mut buffer = Buffer::new();
    push_text(out, buffer.format(number))
}

/// Appends a word or a mark, such as a comma, and then a number in decimal digits. Linear in the bytes.
pub fn push_field(out: &mut Vec<u8>, before: &str, number: u64) -> Result<(), OutOfMemory>
    ensures text { OnOk result (out.new.items ≡ out.old.items ++ (before.now ++ decimal number)) }
    ensures begun { OnErr result (IsBegun out.old.items (before.now ++ decimal number) out.new.items) }
{
    push_text(out, before)?;
    push_number(out, number)
}
