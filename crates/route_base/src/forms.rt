// The forms of names, numbers, minutes and weights.
ghost use Rattle.std.specs.Prelude.{◌≡◌, ◌==◌, [], IfSome, ◌≤◌};
ghost use Rattle.std.specs.List.{slice_split, list_all};
ghost use Rattle.route_base.specs.Time.{IsInstant};
ghost use Rattle.route_base.specs.Forms.{is_blank, is_name_byte, is_name, table_number_of, minute_of, short_number_of};
ghost use Rattle.route_base.specs.Forms.{decimals_of, thousandths_in, weight_of};

use crate::limits::{FIRST_INSTANT, HEAVIEST_WEIGHT, LAST_INSTANT, LONGEST_NAME};
use crate::split::cut;
use crate::{Cost, Minute, read_number, read_plain_number};

/// Whether the byte is a blank: a space or a tab.
pub fn is_blank(b: u8) -> bool
    ensures { result ≡ is_blank b }
{
    b == b' ' || b == b'\t'
}

// Whether a byte may stand in a name.
fn is_byte_of_name(b: u8) -> bool
    ensures { result ≡ is_name_byte b }
{
    matches!(b, b'a'..=b'z' | b'A'..=b'Z' | b'0'..=b'9' | b'_' | b'-' | b'.')
}

// Whether all bytes may stand in a name.
fn are_bytes_of_name(field: &[u8]) -> bool
    ensures { result ≡ list_all is_name_byte field.now }
{
    field.iter().all(|b| is_byte_of_name(*b))
}

/// Whether the bytes are a name: 1 to 64 letters, digits, `_`, `-` and `.`, the first no `-`. Linear in their number.
pub fn is_name_field(field: &[u8]) -> bool
    ensures { result ≡ is_name field.now }
{
    match field {
        [] => false,
        [first, ..] => { *first != b'-' && field.len() <= LONGEST_NAME && are_bytes_of_name(field) }
    }
}

/// The number of 1 to 10 digits, leading zeros allowed; `None` exactly for other bytes and above 4,294,967,295. Linear in
/// their number.
pub fn read_table_number(field: &[u8]) -> Option<u32>
    ensures { result ≡ table_number_of field.now }
{
    if field.len() > 10 {
        return None;
    }
    let number = read_number(field)?;
    if number <= u32::MAX as u64 {
        Some(number as u32)
    } else {
        None
    }
}

/// The instant that digits without a leading zero give as a Unix minute from 1971 to 2199; `None` exactly for other bytes.
/// Linear in their number.
pub fn read_minute(field: &[u8]) -> Option<Minute>
    ensures value { result ≡ minute_of field.now }
    ensures instant { IfSome result IsInstant }
{
    let minute = read_plain_number(field)?;
    if FIRST_INSTANT <= minute && minute <= LAST_INSTANT {
        Some(minute)
    } else {
        None
    }
}

// The number of 1 to 3 digits.
fn read_short_number(digits: &[u8]) -> Option<u64>
    ensures value { result ≡ short_number_of digits.now }
    ensures short { IfSome result (λ n. n ≤ 999) }
{
    if digits.len() > 3 {
        return None;
    }
    read_number(digits)
}

// The thousandths of 1 to 3 digits behind a point.
fn read_decimals(digits: &[u8]) -> Option<u64>
    ensures value { result ≡ decimals_of digits.now }
    ensures short { IfSome result (λ n. n ≤ 999) }
{
    let unit = match digits.len() {
        1 => 100,
        2 => 10,
        3 => 1,
        _ => return None,
    };
    Some(unit * read_short_number(digits)?)
}

// The thousandths of digits with or without a point.
fn read_thousandths(field: &[u8]) -> Option<Cost>
    ensures { result ≡ thousandths_in (slice_split (λ b. b == 46) field.now) }
{
    match cut(field, b'.') {
        None => Some(1000 * read_short_number(field)?),
        Some((whole, decimals)) => match cut(decimals, b'.') {
            None => Some(1000 * read_short_number(whole)? + read_decimals(decimals)?),
            Some(_) => None,
        },
    }
}

/// The weight in thousandths that 1 to 3 digits give, and behind a point 1 to 3 more; `None` exactly for other bytes and above
/// 100. Linear in their number.
pub fn read_weight(field: &[u8]) -> Option<Cost>
    ensures value { result ≡ weight_of field.now }
    ensures small { IfSome result (λ w. w ≤ HEAVIEST_WEIGHT) }
{
    let weight = read_thousandths(field)?;
    if weight <= HEAVIEST_WEIGHT {
        Some(weight)
    } else {
        None
    }
}
