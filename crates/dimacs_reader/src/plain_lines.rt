// Reads the common form of an arc line in one pass over its bytes.
ghost use Rattle.std.specs.Prelude.{◌≡◌, ◌≤◌, [], IfSome, IfNone, length};
ghost use Rattle.dimacs_reader.specs.Inside.PlainLines.{IsFirstLine, IsNumberAt};

use crate::lines::{Line, next_line, read_line};

/// The meaning of the first line and what follows the line; `None` exactly where no bytes are left. Linear in the line, and
/// fastest for arc lines with one space between their tokens.
pub fn read_first_line(bytes: &[u8]) -> Option<(Line, &[u8])>
    ensures first { IfSome result (λ l. IsFirstLine bytes.now l.0 l.1.now) }
    ensures none { IfNone result (bytes.now ≡ []) }
{
    match read_plain_arc(bytes) {
        Some((line, rest)) => Some((line, rest)),
        None => read_any_line(bytes),
    }
}

// The same for a line of any form.
fn read_any_line(bytes: &[u8]) -> Option<(Line, &[u8])>
    ensures first { IfSome result (λ l. IsFirstLine bytes.now l.0 l.1.now) }
    ensures none { IfNone result (bytes.now ≡ []) }
{
    let (text, rest) = next_line(bytes)?;
    Some((read_line(text), rest))
}

// The same for an arc line with one space between its tokens, which ends with a line feed alone; `None` for others.
fn read_plain_arc(bytes: &[u8]) -> Option<(Line, &[u8])>
    ensures { IfSome result (λ l. IsFirstLine bytes.now l.0 l.1.now) }
{
    if bytes.len() < 2 || bytes[0] != b'a' || bytes[1] != b' ' {
        return None;
    }
    let (tail, next) = number_at(bytes, 2, b' ')?;
    let (head, next) = number_at(bytes, next, b' ')?;
    let (minutes, next) = number_at(bytes, next, b'\n')?;
    Some((Line::Arc(tail, head, minutes), &bytes[next..]))
}

// The number of 1 to 18 digits from a place on that stand before the mark, and the place behind the mark; `None` for other bytes.
fn number_at(bytes: &[u8], from: usize, mark: u8) -> Option<(u64, usize)>
    requires { from ≤ length bytes.now }
    ensures { IfSome result (λ t. IsNumberAt mark bytes.now from t.0 t.1) }
{
    let end = bytes.len().min(from + 18);
    let mut at = from;
    let mut n = 0u64;
    while at < end && bytes[at].is_ascii_digit() {
        n = 10 * n + (bytes[at] - b'0') as u64;
        at += 1;
    }
    // A return from the loop would have the compiler count along what is left of the bytes, at each digit.
    if at == from || at == bytes.len() || bytes[at] != mark {
        return None;
    }
    Some((n, at + 1))
}
