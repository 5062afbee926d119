// Tokens as text.
ghost use Rattle.std.specs.Prelude.{◌≡◌, ◌+◌, ◌*◌, ◌/◌, ◌%◌, ◌++◌, IfOk, OnOk, codes};
ghost use Rattle.calendar_days.specs.Texts.{two_digits};
ghost use Rattle.opening_hours.specs.CanonicalText.{month_text, weekday_text, last_digit, lexeme, is_tight, is_closing, blank_between, spell};

use crate::tokens::{Digits, Token};
use calendar_days::Weekday;
use std::alloc::{AllocError, Global};

// The word of a month.
#[tactic(auto, unfolding(crate::specs::CanonicalText::month_text))]
fn month_word(month: u32) -> &'static [u8]
    ensures { result.now ≡ month_text month }
{
    match month {
        1 => b"Jan",
        2 => b"Feb",
        3 => b"Mar",
        4 => b"Apr",
        5 => b"May",
        6 => b"Jun",
        7 => b"Jul",
        8 => b"Aug",
        9 => b"Sep",
        10 => b"Oct",
        11 => b"Nov",
        _ => b"Dec",
    }
}

// The word of a weekday.
fn weekday_word(weekday: Weekday) -> &'static [u8]
    ensures { result.now ≡ weekday_text weekday }
{
    match weekday {
        Weekday::Mo => b"Mo",
        Weekday::Tu => b"Tu",
        Weekday::We => b"We",
        Weekday::Th => b"Th",
        Weekday::Fr => b"Fr",
        Weekday::Sa => b"Sa",
        Weekday::Su => b"Su",
    }
}

// Appends the last digit of a number.
fn put_one(out: &mut Vec<u8>, number: u64) -> Result<(), AllocError>
    ensures { OnOk result (out.new.items ≡ out.old.items ++ last_digit number) }
{
    out.push(b'0' + (number % 10) as u8)?;
    Ok(())
}

// Appends a number in two digits.
fn put_two(out: &mut Vec<u8>, number: u64) -> Result<(), AllocError>
    ensures { OnOk result (out.new.items ≡ out.old.items ++ two_digits number) }
{
    out.push(b'0' + (number / 10 % 10) as u8)?;
    out.push(b'0' + (number % 10) as u8)?;
    Ok(())
}

// Appends a time of day.
fn put_time(out: &mut Vec<u8>, hours: u64, minutes: u64) -> Result<(), AllocError>
    ensures { OnOk result (out.new.items ≡ out.old.items
        ++ (two_digits hours ++ (codes ":" ++ two_digits minutes))) }
{
    put_two(out, hours)?;
    out.push(b':')?;
    put_two(out, minutes)?;
    Ok(())
}

// Appends the text of a token.
fn put_token(out: &mut Vec<u8>, token: Token) -> Result<(), AllocError>
    ensures { OnOk result (out.new.items ≡ out.old.items ++ lexeme token) }
{
    match token {
        Token::Month(m) => out.extend_from_slice(month_word(m)),
        Token::Day(w) => out.extend_from_slice(weekday_word(w)),
        Token::Time(h, m) => put_time(out, h, m),
        Token::Number(n, Digits::One) => put_one(out, n as u64),
        Token::Number(n, Digits::Two) => put_two(out, n as u64),
        Token::Public => out.extend_from_slice(b"PH"),
        Token::School => out.extend_from_slice(b"SH"),
        Token::Off => out.extend_from_slice(b"off"),
        Token::Open => out.extend_from_slice(b"open"),
        Token::Always => out.extend_from_slice(b"24/7"),
        Token::Unknown => Ok(()),
        Token::Dash => out.extend_from_slice(b"-"),
        Token::Comma => out.extend_from_slice(b","),
        Token::Semicolon => out.extend_from_slice(b";"),
        Token::Colon => out.extend_from_slice(b":"),
        Token::LeftBracket => out.extend_from_slice(b"["),
        Token::RightBracket => out.extend_from_slice(b"]"),
    }
}

// Whether a token has no blank beside it.
fn tight(token: Token) -> bool
    ensures { result ≡ is_tight token }
{
    matches!(token, Token::Dash | Token::Comma | Token::LeftBracket)
}

// Whether a token has no blank before it.
fn closing(token: Token) -> bool
    ensures { result ≡ is_closing token }
{
    matches!(token, Token::Semicolon | Token::RightBracket)
}

// Appends the blank between two tokens, where there is one.
fn put_blank(out: &mut Vec<u8>, token: Token, next: Token) -> Result<(), AllocError>
    ensures { OnOk result (out.new.items ≡ out.old.items ++ blank_between token next) }
{
    if !(tight(token) || tight(next) || closing(next)) {
        out.push(b' ')?;
    }
    Ok(())
}

/// The text of tokens.
#[tactic(auto, unfolding(crate::specs::CanonicalText::spell))]
pub(crate) fn spelled(alloc: Global, tokens: &[Token]) -> Result<Vec<u8>, AllocError>
    ensures { IfOk result (λ v. v.items ≡ spell tokens.now) }
{
    let mut out = Vec::new(alloc);
    let mut rest = tokens;
    while let [t, after @ ..] = rest {
        put_token(&mut out, *t)?;
        if let [u, ..] = after {
            put_blank(&mut out, *t, *u)?;
        }
        rest = after;
    }
    Ok(out)
}
