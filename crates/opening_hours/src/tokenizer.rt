// Cuts a text into tokens.
ghost use Rattle.std.specs.Prelude.{◌≡◌, ◌≤◌, ◌+◌, ◌-◌, ◌*◌, length, List, Some, None, Option, option_map, IfOk};
ghost use Rattle.std.specs.List.{take_while};
ghost use Rattle.std.specs.Result.{IsErrOf};
ghost use Rattle.opening_hours.specs.declared.tokens.Token.{Token as Lexeme};
ghost use Rattle.opening_hours.specs.Tokens.{is_digit, is_letter, number_of_two, without_blanks, IsCut};
ghost use Rattle.route_base.specs.Forms.{is_blank};
ghost use Rattle.opening_hours.specs.Inside.Tokenizer.{word_of, word_at, always_at, long_time_at, short_time_at, long_number_at};
ghost use Rattle.opening_hours.specs.Inside.Tokenizer.{short_number_at, mark_at, token_at};

use crate::faults::HoursFault;
use crate::tokens::{Digits, Token};
use crate::vocabulary::word;
use route_base::{Listing, is_blank};
use std::alloc::Global;

/// Whether a byte is a decimal digit.
pub fn is_digit(byte: u8) -> bool
    ensures { result ≡ is_digit byte }
{
    b'0' <= byte && byte <= b'9'
}

// Whether a byte is a letter.
fn letter(byte: u8) -> bool
    ensures { result ≡ is_letter byte }
{
    (b'A' <= byte && byte <= b'Z') || (b'a' <= byte && byte <= b'z')
}

// The number of a digit, and 0 of another byte.
fn value(byte: u8) -> u8
    ensures value { result ≡ byte - 48 }
{
    if byte < b'0' { 0 } else { byte - b'0' }
}

// The number of letters at the front of a text.
fn letters(text: &[u8]) -> usize
    ensures { result ≡ length (take_while is_letter text.now) }
{
    text.iter().take_while(|b| letter(**b)).count()
}

// The token of a word, unless it is empty, and the bytes after it.
fn some_word<'a>(word_bytes: &[u8], rest: &'a [u8]) -> Option<(Token, &'a [u8])>
    ensures { option_map (λ f. (f.0, f.1.now)) result ≡ word_of word_bytes.now rest.now }
{
    if word_bytes.is_empty() {
        return None;
    }
    Some((word(word_bytes), rest))
}

// The word at the front of a text, and the bytes after it.
#[tactic(auto, using(crate::proofs::Cuts::front_of_bytes), unfolding(crate::specs::Inside::Tokenizer::word_at))]
fn leading_word(text: &[u8]) -> Option<(Token, &[u8])>
    ensures { option_map (λ f. (f.0, f.1.now)) result ≡ word_at text.now }
{
    let (front, rest) = text.split_at(letters(text));
    some_word(front, rest)
}

// The token `24/7` at the front of a text, and the bytes after it.
fn always(text: &[u8]) -> Option<(Token, &[u8])>
    ensures { option_map (λ f. (f.0, f.1.now)) result ≡ always_at text.now }
{
    match text {
        [a, b, c, d, rest @ ..] => {
            if *a == b'2' && *b == b'4' && *c == b'/' && *d == b'7' {
                Some((Token::Always, rest))
            } else {
                None
            }
        }
        _ => None,
    }
}

// The number of two digits.
fn two(tens: u8, ones: u8) -> u8
    requires first { tens ≤ 57 }
    requires second { ones ≤ 57 }
    ensures { result ≡ number_of_two tens ones }
{
    10 * value(tens) + value(ones)
}

// A time with two digits for its hour, and the bytes after it.
fn long_time(text: &[u8]) -> Option<(Token, &[u8])>
    ensures { option_map (λ f. (f.0, f.1.now)) result ≡ long_time_at text.now }
{
    match text {
        [a, b, c, d, e, rest @ ..] => {
            if is_digit(*a) && is_digit(*b) && *c == b':' && is_digit(*d) && is_digit(*e) {
                Some((Token::Time(two(*a, *b) as u64, two(*d, *e) as u64), rest))
            } else {
                None
            }
        }
        _ => None,
    }
}

// A time with one digit for its hour, and the bytes after it.
fn short_time(text: &[u8]) -> Option<(Token, &[u8])>
    ensures { option_map (λ f. (f.0, f.1.now)) result ≡ short_time_at text.now }
{
    match text {
        [a, c, d, e, rest @ ..] => {
            if is_digit(*a) && *c == b':' && is_digit(*d) && is_digit(*e) {
                Some((Token::Time(value(*a) as u64, two(*d, *e) as u64), rest))
            } else {
                None
            }
        }
        _ => None,
    }
}

// A number of two digits, and the bytes after it.
fn long_number(text: &[u8]) -> Option<(Token, &[u8])>
    ensures { option_map (λ f. (f.0, f.1.now)) result ≡ long_number_at text.now }
{
    match text {
        [a, b, rest @ ..] => {
            if is_digit(*a) && is_digit(*b) {
                Some((Token::Number(two(*a, *b) as u32, Digits::Two), rest))
            } else {
                None
            }
        }
        _ => None,
    }
}

// A number of one digit, and the bytes after it.
fn short_number(text: &[u8]) -> Option<(Token, &[u8])>
    ensures { option_map (λ f. (f.0, f.1.now)) result ≡ short_number_at text.now }
{
    match text {
        [a, rest @ ..] => {
            if is_digit(*a) {
                Some((Token::Number(value(*a) as u32, Digits::One), rest))
            } else {
                None
            }
        }
        _ => None,
    }
}

// A dash, comma, semicolon, colon or bracket, and the bytes after it.
fn mark(text: &[u8]) -> Option<(Token, &[u8])>
    ensures { option_map (λ f. (f.0, f.1.now)) result ≡ mark_at text.now }
{
    match text {
        [a, rest @ ..] => {
            if *a == b'-' {
                Some((Token::Dash, rest))
            } else if *a == b',' {
                Some((Token::Comma, rest))
            } else if *a == b';' {
                Some((Token::Semicolon, rest))
            } else if *a == b':' {
                Some((Token::Colon, rest))
            } else if *a == b'[' {
                Some((Token::LeftBracket, rest))
            } else if *a == b']' {
                Some((Token::RightBracket, rest))
            } else {
                None
            }
        }
        _ => None,
    }
}

// The longest token at the front of a text, and the bytes after it.
#[tactic(auto, unfolding(crate::specs::Inside::Tokenizer::token_at))]
fn first_token(text: &[u8]) -> Option<(Token, &[u8])>
    ensures { option_map (λ f. (f.0, f.1.now)) result ≡ token_at text.now }
{
    if let Some(found) = leading_word(text) {
        return Some(found);
    }
    if let Some(found) = long_time(text) {
        return Some(found);
    }
    if let Some(found) = always(text) {
        return Some(found);
    }
    if let Some(found) = short_time(text) {
        return Some(found);
    }
    if let Some(found) = long_number(text) {
        return Some(found);
    }
    if let Some(found) = short_number(text) {
        return Some(found);
    }
    mark(text)
}

/// The text without the blanks at its front. Linear in their number.
pub fn behind_blanks(text: &[u8]) -> &[u8]
    ensures { result.now ≡ without_blanks text.now }
{
    let mut rest = text;
    while let [b, after @ ..] = rest {
        if !is_blank(*b) {
            return rest;
        }
        rest = after;
    }
    rest
}

/// Cuts a text into tokens; `NotHours` exactly if that is impossible.
pub fn cut(alloc: Global, text: &[u8]) -> Result<Listing<Token>, HoursFault>
    ensures found { IfOk result (λ v. IsCut text.now v) }
    ensures none { IsErrOf result HoursFault.NotHours → (ts : List Lexeme) → IsCut text.now ts → ⊥ }
{
    let mut tokens = Listing::new(alloc);
    let mut rest = text;
    loop {
        let Some((token, after)) = first_token(rest) else {
            return Err(HoursFault::NotHours);
        };
        tokens.push(token)?;
        if after.is_empty() {
            return Ok(tokens);
        }
        rest = behind_blanks(after);
    }
}
