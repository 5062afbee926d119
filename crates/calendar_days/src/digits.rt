// Numbers as two and as four decimal digits.
ghost use Rattle.std.specs.Prelude.{◌≡◌, ◌≤◌, ◌∷◌, [], IfSome};
ghost use Rattle.route_base.specs.Digits.{number_of};
ghost use Rattle.calendar_days.specs.Texts.{two_digits};

// The number that two digits write.
pub(crate) fn read_two(tens: u8, ones: u8) -> Option<u32>
    ensures value { result ≡ number_of (tens ∷ ones ∷ []) }
    ensures small { IfSome result (λ n. n ≤ 99) }
{
    if tens < b'0' || tens > b'9' || ones < b'0' || ones > b'9' {
        return None;
    }
    Some(10 * (tens - b'0') as u32 + (ones - b'0') as u32)
}

// The number that four digits write.
pub(crate) fn read_four(thousands: u8, hundreds: u8, tens: u8, ones: u8) -> Option<u32>
    ensures { result ≡ number_of (thousands ∷ hundreds ∷ tens ∷ ones ∷ []) }
{
    let century = read_two(thousands, hundreds)?;
    let year = read_two(tens, ones)?;
    Some(100 * century + year)
}

// The last two digits of a number.
pub(crate) fn two_digits(n: u32) -> [u8; 2]
    ensures { result ≡ two_digits n }
{
    [b'0' + (n / 10 % 10) as u8, b'0' + (n % 10) as u8]
}
