// Writes comparisons.
ghost use Rattle.std.specs.Prelude.{◌≡◌, ◌++◌, OnOk};
ghost use Rattle.conditional_rules.specs.declared.conditional.Part.TheVariants.{Compare};
ghost use Rattle.conditional_rules.specs.Comparisons.{quantity_text, decimals_in};
ghost use Rattle.conditional_rules.specs.CanonicalText.{sign_text, measure_text, part_text};

use crate::conditional::Comparison;
use line_texts::{push_number, push_text, push_thousandths};
use route_base::OutOfMemory;
use vehicle_classes::Quantity;

// The word of a size.
fn quantity_word(quantity: Quantity) -> &'static str
    ensures { result.now ≡ quantity_text quantity }
{
    match quantity {
        Quantity::Weight => "weight",
        Quantity::Axleload => "axleload",
        Quantity::Height => "height",
        Quantity::Width => "width",
        Quantity::Length => "length",
        Quantity::Axles => "axles",
    }
}

// The sign of a comparison.
fn sign(comparison: Comparison) -> &'static str
    ensures { result.now ≡ sign_text comparison }
{
    match comparison {
        Comparison::Below => "<",
        Comparison::AtMost => "<=",
        Comparison::Above => ">",
        Comparison::AtLeast => ">=",
        Comparison::Equal => "=",
    }
}

// Appends a value in hundredths, with its two decimals.
fn push_hundredths(out: &mut Vec<u8>, value: u64) -> Result<(), OutOfMemory>
    ensures { OnOk result (out.new.items ≡ out.old.items ++ measure_text 2 value) }
{
    let part = [
        b'.',
        b'0' + (value / 10 % 10) as u8,
        b'0' + (value % 10) as u8,
    ];
    push_number(out, value / 100)?;
    out.extend_from_slice(&part)?;
    Ok(())
}

// Appends a value with the decimals of its size.
#[tactic(auto, using(crate::proofs::PrintedNumbers::thousandths_are))]
fn push_value(out: &mut Vec<u8>, quantity: Quantity, value: u64) -> Result<(), OutOfMemory>
    ensures { OnOk result (
        out.new.items ≡ out.old.items ++ measure_text (decimals_in quantity) value) }
{
    match quantity {
        Quantity::Weight | Quantity::Axleload => push_thousandths(out, value),
        Quantity::Height | Quantity::Width | Quantity::Length => push_hundredths(out, value),
        Quantity::Axles => push_number(out, value),
    }
}

/// Appends a comparison: the size, the sign, and the value with all its decimals; it writes no unit and no blanks.
pub(crate) fn push_comparison(
    out: &mut Vec<u8>,
    quantity: Quantity,
    comparison: Comparison,
    value: u64,
) -> Result<(), OutOfMemory>
    ensures { OnOk result (
        out.new.items ≡ out.old.items ++ part_text (Compare quantity comparison value)) }
{
    push_text(out, quantity_word(quantity))?;
    push_text(out, sign(comparison))?;
    push_value(out, quantity, value)
}
