// Blanks at the ends of a text, and the first mark in it.
ghost use Rattle.std.specs.Prelude.{◌≡◌, ◌+◌, ◌<◌, ◌∷◌, [], IfSome, length, reverse};
ghost use Rattle.opening_hours.specs.Tokens.{without_blanks};
ghost use Rattle.conditional_rules.specs.Cutting.{trimmed, is_within, first_semicolon, is_and, starts_with_and, first_and};

use opening_hours::behind_blanks;
use route_base::is_blank;

// The text without the blanks at its end.
fn before_blanks(text: &[u8]) -> &[u8]
    ensures { result.now ≡ reverse (without_blanks (reverse text.now)) }
{
    let mut rest = text;
    while let [front @ .., b] = rest {
        if !is_blank(*b) {
            return rest;
        }
        rest = front;
    }
    rest
}

/// The text without the blanks at both ends. Linear in their number.
pub fn trim(text: &[u8]) -> &[u8]
    ensures { result.now ≡ trimmed text.now }
{
    before_blanks(behind_blanks(text))
}

// Whether what follows a byte is within parentheses.
fn within_after(within: bool, byte: u8) -> bool
    ensures { result ≡ is_within within byte }
{
    if byte == b'(' {
        true
    } else if byte == b')' {
        false
    } else {
        within
    }
}

/// The place of the first semicolon outside parentheses; `None` exactly where there is none. Linear in the bytes before it.
pub fn first_semicolon(text: &[u8]) -> Option<usize>
    ensures place { result ≡ first_semicolon text.now }
    ensures inside { IfSome result (λ i. i < length text.now) }
{
    let mut within = false;
    let mut place = 0;
    let mut rest = text;
    while let [b, after @ ..] = rest {
        if !within && *b == b';' {
            return Some(place);
        }
        within = within_after(within, *b);
        place += 1;
        rest = after;
    }
    None
}

// Whether three bytes are the word that joins parts.
fn are_and(a: u8, b: u8, c: u8) -> bool
    ensures { result ≡ is_and (a ∷ b ∷ c ∷ []) }
{
    a == b'A' && b == b'N' && c == b'D' || a == b'a' && b == b'n' && c == b'd'
}

// Whether a text begins with a blank, the word that joins parts and a blank.
fn begins_with_and(text: &[u8]) -> bool
    ensures { result ≡ starts_with_and text.now }
{
    match text {
        [a, b, c, d, e, ..] => is_blank(*a) && are_and(*b, *c, *d) && is_blank(*e),
        _ => false,
    }
}

/// The place of the first blank that the word `AND` or `and` and a blank follow; `None` exactly where there is none. Linear
/// in the bytes before it.
pub fn first_and(text: &[u8]) -> Option<usize>
    ensures place { result ≡ first_and text.now }
    ensures inside { IfSome result (λ i. i + 4 < length text.now) }
{
    let mut place = 0;
    let mut rest = text;
    while let [_, after @ ..] = rest {
        if begins_with_and(rest) {
            return Some(place);
        }
        place += 1;
        rest = after;
    }
    None
}
