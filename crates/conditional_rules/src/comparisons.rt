// Reads comparisons with a size of the vehicle.
ghost use Rattle.std.specs.Prelude.{◌≡◌, ◌≤◌, ◌^◌, ℕ, length, option_map, IfSome, IfNone};
ghost use Rattle.std.specs.List.{take_while};
ghost use Rattle.route_base.specs.Forms.{is_blank};
ghost use Rattle.opening_hours.specs.Tokens.{is_digit};
ghost use Rattle.vehicle_classes.specs.declared.classes.Quantity.{Quantity as Size};
ghost use Rattle.conditional_rules.specs.declared.conditional.Comparison.{Comparison as Sign};
ghost use Rattle.conditional_rules.specs.Comparisons.{decimals_in, unit_text, IsComparison};
ghost use Rattle.conditional_rules.specs.Conditions.{is_small_letter};
ghost use Rattle.conditional_rules.specs.Inside.Comparisons.{bytes_behind, quantity_of, sign_at, is_unit, bounded_number_of};
ghost use Rattle.conditional_rules.specs.Inside.Comparisons.{decimals_at, decimal_point_at, measure_at};
ghost use Rattle.conditional_rules.specs.Inside.Comparisons.{Compared, measured, signed, comparison_of};

use crate::conditional::Comparison;
use opening_hours::is_digit;
use route_base::{is_blank, read_number};
use vehicle_classes::Quantity;

/// Whether a byte is a small letter.
pub(crate) fn small_letter(byte: u8) -> bool
    ensures { result ≡ is_small_letter byte }
{
    b'a' <= byte && byte <= b'z'
}

// The number of small letters at the front of a text.
fn letters(text: &[u8]) -> usize
    ensures { result ≡ length (take_while is_small_letter text.now) }
{
    text.iter().take_while(|b| small_letter(**b)).count()
}

// The number of digits at the front of a text.
fn digits(text: &[u8]) -> usize
    ensures { result ≡ length (take_while is_digit text.now) }
{
    text.iter().take_while(|b| is_digit(**b)).count()
}

// The number of blanks at the front of a text.
fn blanks(text: &[u8]) -> usize
    ensures { result ≡ length (take_while is_blank text.now) }
{
    text.iter().take_while(|b| is_blank(**b)).count()
}

// The bytes behind the blanks at the front of a text.
fn behind_blanks(text: &[u8]) -> &[u8]
    ensures { result.now ≡ bytes_behind is_blank text.now }
{
    let (_, rest) = text.split_at(blanks(text));
    rest
}

// The most decimals of a size.
fn decimals(quantity: Quantity) -> usize
    ensures value { result ≡ decimals_in quantity }
    ensures few { result ≤ 3 }
{
    match quantity {
        Quantity::Weight | Quantity::Axleload => 3,
        Quantity::Height | Quantity::Width | Quantity::Length => 2,
        Quantity::Axles => 0,
    }
}

// The unit of a size.
fn unit(quantity: Quantity) -> &'static [u8]
    ensures { result.now ≡ unit_text quantity }
{
    match quantity {
        Quantity::Weight | Quantity::Axleload => b"t".as_slice(),
        Quantity::Height | Quantity::Width | Quantity::Length => b"m".as_slice(),
        Quantity::Axles => b"".as_slice(),
    }
}

// Whether the bytes are nothing or the unit of a size.
fn may_end(quantity: Quantity, text: &[u8]) -> bool
    ensures { result ≡ is_unit quantity text.now }
{
    text == b"".as_slice() || text == unit(quantity)
}

// The size of a word.
#[tactic(auto, unfolding(crate::specs::Inside::Comparisons::quantity_of))]
fn quantity(word: &[u8]) -> Option<Quantity>
    ensures { result ≡ quantity_of word.now }
{
    if word == b"weight".as_slice() {
        Some(Quantity::Weight)
    } else if word == b"axleload".as_slice() {
        Some(Quantity::Axleload)
    } else if word == b"height".as_slice() {
        Some(Quantity::Height)
    } else if word == b"width".as_slice() {
        Some(Quantity::Width)
    } else if word == b"length".as_slice() {
        Some(Quantity::Length)
    } else if word == b"axles".as_slice() {
        Some(Quantity::Axles)
    } else {
        None
    }
}

// The sign at the front of a text, and the bytes behind it.
#[tactic(auto, unfolding(crate::specs::Inside::Comparisons::sign_at))]
fn leading_sign(text: &[u8]) -> Option<(Comparison, &[u8])>
    ensures { option_map (λ f. (f.0, f.1.now)) result ≡ sign_at text.now }
{
    match text {
        [b'<', b'=', rest @ ..] => Some((Comparison::AtMost, rest)),
        [b'<', rest @ ..] => Some((Comparison::Below, rest)),
        [b'>', b'=', rest @ ..] => Some((Comparison::AtLeast, rest)),
        [b'>', rest @ ..] => Some((Comparison::Above, rest)),
        [b'=', b'=', rest @ ..] => Some((Comparison::Equal, rest)),
        [b'=', rest @ ..] => Some((Comparison::Equal, rest)),
        _ => None,
    }
}

// The number of at most n digits.
#[tactic(auto, using(crate::proofs::Runs::number_small))]
fn short_number(most: usize, text: &[u8]) -> Option<u64>
    requires { most ≤ 6 }
    ensures value { result ≡ bounded_number_of most text.now }
    ensures small { IfSome result (λ n. n ≤ 999999) }
{
    if text.len() <= most {
        read_number(text)
    } else {
        None
    }
}

// Ten to the power of 0 to 3.
fn power_of_ten(n: usize) -> u64
    requires { n ≤ 3 }
    ensures value { result ≡ 10 ^ n }
    ensures small { result ≤ 1000 }
{
    match n {
        0 => 1,
        1 => 10,
        2 => 100,
        _ => 1000,
    }
}

// The value of a whole number and the decimals at the front of a text, and the bytes behind them.
fn with_decimals(most: usize, whole: u64, text: &[u8]) -> Option<(u64, &[u8])>
    requires few { most ≤ 3 }
    requires small { whole ≤ 999999 }
    ensures { option_map (λ f. (f.0, f.1.now)) result ≡ decimals_at most whole text.now }
{
    let (front, rest) = text.split_at(digits(text));
    let further = short_number(most, front)?;
    let unit = power_of_ten(most - front.len());
    Some((whole * power_of_ten(most) + further * unit, rest))
}

// The value of a whole number, and of a point and decimals where a point follows, and the bytes behind them.
fn with_point(most: usize, whole: u64, text: &[u8]) -> Option<(u64, &[u8])>
    requires few { most ≤ 3 }
    requires small { whole ≤ 999999 }
    ensures { option_map (λ f. (f.0, f.1.now)) result ≡ decimal_point_at most whole text.now }
{
    match text {
        [b'.', rest @ ..] => with_decimals(most, whole, rest),
        _ => Some((whole * power_of_ten(most), text)),
    }
}

// The measure at the front of a text, and the bytes behind it.
#[tactic(auto, unfolding(crate::specs::Inside::Comparisons::measure_at))]
fn leading_measure(most: usize, text: &[u8]) -> Option<(u64, &[u8])>
    requires { most ≤ 3 }
    ensures { option_map (λ f. (f.0, f.1.now)) result ≡ measure_at most text.now }
{
    let (front, rest) = text.split_at(digits(text));
    with_point(most, short_number(6, front)?, rest)
}

// The comparison whose size and sign are read, from its measure on.
#[tactic(auto, unfolding(crate::specs::Inside::Comparisons::measured))]
fn with_measure(
    quantity: Quantity,
    comparison: Comparison,
    text: &[u8],
) -> Option<(Quantity, Comparison, u64)>
    ensures { result ≡ measured quantity comparison text.now }
{
    let (value, rest) = leading_measure(decimals(quantity), text)?;
    if may_end(quantity, behind_blanks(rest)) {
        Some((quantity, comparison, value))
    } else {
        None
    }
}

// The comparison whose size is read, from its sign on.
#[tactic(auto, unfolding(crate::specs::Inside::Comparisons::signed))]
fn with_sign(quantity: Quantity, text: &[u8]) -> Option<(Quantity, Comparison, u64)>
    ensures { result ≡ signed quantity text.now }
{
    let (comparison, rest) = leading_sign(text)?;
    with_measure(quantity, comparison, behind_blanks(rest))
}

// The comparison that the text is.
#[tactic(auto, unfolding(crate::specs::Inside::Comparisons::comparison_of))]
fn comparison(text: &[u8]) -> Option<(Quantity, Comparison, u64)>
    ensures { result ≡ comparison_of text.now }
{
    let (word, rest) = text.split_at(letters(text));
    with_sign(quantity(word)?, behind_blanks(rest))
}

/// The size, the sign and the value of a comparison; `None` exactly where the text is none. The value is in kilograms,
/// centimetres or axles. Linear in the text's length.
#[tactic(auto, using(crate::proofs::ReadComparisons::comparison_found, crate::proofs::ReadComparisons::comparison_only, crate::proofs::ReadComparisons::comparison_read))]
pub(crate) fn read_comparison(text: &[u8]) -> Option<(Quantity, Comparison, u64)>
    // The text is this comparison.
    ensures found { IfSome result (λ c. IsComparison text.now c.0 c.1 c.2) }
    // It is no other.
    ensures only { IfSome result (λ c. (a : Compared) → IsComparison text.now a.0 a.1 a.2 → a ≡ c) }
    // A text that is refused is none.
    ensures none { IfNone result ((q : Size) (c : Sign) (v : ℕ) → IsComparison text.now q c v → ⊥) }
{
    comparison(text)
}
