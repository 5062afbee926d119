// Numbers as decimal digits.
ghost use Rattle.std.specs.Prelude.{◌≡◌};
ghost use Rattle.route_base.specs.Digits.{number_of, plain_number_of};

/// The number that 1 to 18 digits write, leading zeros allowed; `None` exactly for other bytes. Linear in their number.
pub fn read_number(digits: &[u8]) -> Option<u64>
    ensures { result ≡ number_of digits.now }
{
    if digits.is_empty() || digits.len() > 18 {
        return None;
    }
    let mut n = 0u64;
    for b in digits {
        if *b < b'0' || *b > b'9' {
            return None;
        }
        n = 10 * n + (*b - b'0') as u64;
    }
    Some(n)
}

/// The number that 1 to 18 digits without a leading zero write, `0` itself allowed; `None` exactly for other bytes. Linear in
/// their number.
pub fn read_plain_number(digits: &[u8]) -> Option<u64>
    ensures { result ≡ plain_number_of digits.now }
{
    match digits {
        [b'0', _, ..] => None,
        _ => read_number(digits),
    }
}
