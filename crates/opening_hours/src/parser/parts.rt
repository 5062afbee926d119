// Parses a single date, day item, span or long span.
ghost use Rattle.std.specs.Prelude.{◌≡◌, ◌≤◌, Some, None, if◌then◌else◌};
ghost use Rattle.opening_hours.specs.Grammar.{dates_from_to, span_length, long_length};
ghost use Rattle.opening_hours.specs.Inside.Parser.{is_month, is_day_number, is_ordinal, is_time, read_date, read_item, read_span, read_long, is_long, is_opens};

use crate::tokens::{Digits, Token};
use crate::types::{DateSpan, DayItem, LongSpan, TimeSpan};
use calendar_days::Weekday;

// Whether a number is that of a month.
fn is_month_number(number: u32) -> bool
    ensures { result ≡ is_month number }
{
    1 <= number && number <= 12
}

// Whether a number is one that a day of some month has.
fn is_day(number: u32) -> bool
    ensures { result ≡ is_day_number number }
{
    1 <= number && number <= 31
}

// Whether a number is an ordinal of a weekday in a month.
fn is_ordinal_number(number: u32) -> bool
    ensures { result ≡ is_ordinal number }
{
    1 <= number && number <= 5
}

// The date span between two ends.
fn date_span(first_month: u32, first_day: u32, last_month: u32, last_day: u32) -> DateSpan
    ensures { result ≡ dates_from_to first_month first_day last_month last_day }
{
    DateSpan {
        first_month,
        first_day,
        last_month,
        last_day,
    }
}

// The value, where its numbers are in range.
fn some_if<T: Copy>(fits: bool, value: T) -> Option<T>
    ensures { result ≡ (if fits then Some value else None) }
{
    if fits { Some(value) } else { None }
}

/// The date span that the tokens are.
pub(crate) fn date(piece: &[Token]) -> Option<DateSpan>
    ensures { result ≡ read_date piece.now }
{
    match piece {
        [Token::Month(m)] => some_if(is_month_number(*m), date_span(*m, 1, *m, 31)),
        [Token::Month(m), Token::Dash, Token::Month(n)] => {
            let fits = is_month_number(*m) && is_month_number(*n);
            some_if(fits, date_span(*m, 1, *n, 31))
        }
        [Token::Month(m), Token::Number(a, _)] => {
            let fits = is_month_number(*m) && is_day(*a);
            some_if(fits, date_span(*m, *a, *m, *a))
        }
        [
            Token::Month(m),
            Token::Number(a, _),
            Token::Dash,
            Token::Number(b, _),
        ] => {
            let fits = is_month_number(*m) && is_day(*a) && is_day(*b);
            some_if(fits, date_span(*m, *a, *m, *b))
        }
        [
            Token::Month(m),
            Token::Number(a, _),
            Token::Dash,
            Token::Month(n),
            Token::Number(b, _),
        ] => {
            let fits = is_month_number(*m) && is_day(*a) && is_month_number(*n) && is_day(*b);
            some_if(fits, date_span(*m, *a, *n, *b))
        }
        _ => None,
    }
}

/// The day item that the tokens are.
pub(crate) fn item(piece: &[Token]) -> Option<DayItem>
    ensures { result ≡ read_item piece.now }
{
    match piece {
        [Token::Day(a)] => Some(DayItem::Week(*a, *a)),
        [Token::Day(a), Token::Dash, Token::Day(b)] => Some(DayItem::Week(*a, *b)),
        [Token::Public] => Some(DayItem::Public),
        [Token::School] => Some(DayItem::School),
        [
            Token::Day(a),
            Token::LeftBracket,
            Token::Number(k, Digits::One),
            Token::RightBracket,
        ] => some_if(is_ordinal_number(*k), DayItem::Nth(*a, *k)),
        [
            Token::Day(a),
            Token::LeftBracket,
            Token::Dash,
            Token::Number(k, Digits::One),
            Token::RightBracket,
        ] => some_if(is_ordinal_number(*k), DayItem::NthLast(*a, *k)),
        _ => None,
    }
}

// Whether hours and minutes are a time that is at most a limit in minutes.
fn is_time_up_to(hours: u64, minutes: u64, limit: u64) -> bool
    requires { limit ≤ 100000 }
    ensures { result ≡ is_time hours minutes limit }
{
    minutes <= 59 && hours <= limit && 60 * hours + minutes <= limit
}

// The minutes from a start to an end, which is on the next day unless it is above the start.
fn length_of_span(start: u64, end: u64) -> u64
    requires start { start ≤ 1440 }
    requires end { end ≤ 100000 }
    ensures { result ≡ span_length start end }
{
    if start < end {
        end - start
    } else {
        end + 1440 - start
    }
}

// The minutes from a time of one weekday to a time of another, a week later unless the end is above the start.
fn length_of_long(first: Weekday, start: u64, last_day: Weekday, end: u64) -> u64
    requires start { start ≤ 10000 }
    requires end { end ≤ 100000 }
    ensures { result ≡ long_length first start last_day end }
{
    let last = 1440 * (first.days_to(last_day) % 7) as u64 + end;
    if start < last {
        last - start
    } else {
        last + 10080 - start
    }
}

/// The span that the tokens are.
pub(crate) fn span(piece: &[Token]) -> Option<TimeSpan>
    ensures { result ≡ read_span piece.now }
{
    match piece {
        [Token::Time(h, m), Token::Dash, Token::Time(g, n)] => {
            if is_time_up_to(*h, *m, 1439) && is_time_up_to(*g, *n, 2880) {
                let start = 60 * *h + *m;
                let end = 60 * *g + *n;
                Some(TimeSpan {
                    start: start as u32,
                    length: length_of_span(start, end) as u32,
                })
            } else {
                None
            }
        }
        _ => None,
    }
}

/// Whether the tokens begin as a long span does.
pub(crate) fn long_begins(tokens: &[Token]) -> bool
    ensures { result ≡ is_long tokens.now }
{
    match tokens {
        [
            Token::Day(_),
            Token::Time(_, _),
            Token::Dash,
            Token::Day(_),
            ..
        ] => true,
        _ => false,
    }
}

/// Whether the tokens may end a rule: none, or the word `open`.
pub(crate) fn may_end(tokens: &[Token]) -> bool
    ensures { result ≡ is_opens tokens.now }
{
    match tokens {
        [] => true,
        [Token::Open] => true,
        _ => false,
    }
}

/// The long span that the tokens are, followed by `open` or nothing.
pub(crate) fn long_span(tokens: &[Token]) -> Option<LongSpan>
    ensures { result ≡ read_long tokens.now }
{
    match tokens {
        [
            Token::Day(a),
            Token::Time(h, m),
            Token::Dash,
            Token::Day(b),
            Token::Time(g, n),
            after @ ..,
        ] => {
            if is_time_up_to(*h, *m, 1439) && is_time_up_to(*g, *n, 1440) && may_end(after) {
                let start = 60 * *h + *m;
                let end = 60 * *g + *n;
                Some(LongSpan {
                    weekday: *a,
                    start: start as u32,
                    length: length_of_long(*a, start, *b, end) as u32,
                })
            } else {
                None
            }
        }
        _ => None,
    }
}
