// Parses rules from tokens.
ghost use Rattle.std.specs.Prelude.{◌≡◌, length, List, Some, Option, option_map};
ghost use Rattle.std.specs.List.{take_while};
ghost use Rattle.opening_hours.specs.Grammar.{whole_day};
ghost use Rattle.opening_hours.specs.Inside.Parser.{ParsesAs, read_date, read_item, read_span, is_off, belongs, behind, tail_of};
ghost use Rattle.opening_hours.specs.Inside.Parser.{pieces, all_read, read_dates, read_days, read_spans, read_times, read_after};
ghost use Rattle.opening_hours.specs.Inside.Parser.{without_colon, read_dated, read_rule, read_rules};

use crate::faults::HoursFault;
use crate::parser::parts::{date, item, long_begins, long_span, may_end, span};
use crate::tokens::{Part, Token};
use crate::types::{DateSpan, DateSpans, DayItem, DayItems, HoursRule, RuleTimes, Spans, TimeSpan};
use route_base::Listing;
use std::alloc::Global;

// Whether a token may belong to a part.
fn is_of(part: Part, token: Token) -> bool
    ensures { result ≡ belongs part token }
{
    match part {
        Part::Rule => !matches!(token, Token::Semicolon),
        Part::Item => !matches!(token, Token::Comma),
        Part::Dates => {
            matches!(
                token,
                Token::Month(_) | Token::Number(_, _) | Token::Dash | Token::Comma
            )
        }
        Part::Days => {
            matches!(
                token,
                Token::Day(_)
                    | Token::Public
                    | Token::School
                    | Token::LeftBracket
                    | Token::Number(_, _)
                    | Token::RightBracket
                    | Token::Dash
                    | Token::Comma
            )
        }
        Part::Spans => matches!(token, Token::Time(_, _) | Token::Dash | Token::Comma),
    }
}

// The number of tokens at the front that belong to a part.
fn front_len(part: Part, tokens: &[Token]) -> usize
    ensures { result ≡ length (take_while (belongs part) tokens.now) }
{
    tokens.iter().take_while(|t| is_of(part, **t)).count()
}

// The longest prefix of tokens that belong to a part, and the tokens after it.
#[tactic(auto, using(crate::proofs::Parts::front_len_is, crate::proofs::Parts::behind_is))]
fn front(part: Part, tokens: &[Token]) -> (&[Token], &[Token])
    ensures front { result.0.now ≡ take_while (belongs part) tokens.now }
    ensures behind { result.1.now ≡ behind (belongs part) tokens.now }
{
    tokens.split_at(front_len(part, tokens))
}

/// Values that are parsed from one piece of a list of tokens.
trait Piece {
    ghost use Rattle.opening_hours.specs.declared.tokens.Token.{Token};

    ghost reading: { List Token → Option Self };

    fn read(alloc: Global, piece: &[Token]) -> Result<Self, HoursFault>
        ensures { ParsesAs (λ x. x) result (reading piece.now) };
}

impl Piece for DateSpan {
    ghost reading = { read_date };

    fn read(_alloc: Global, piece: &[Token]) -> Result<DateSpan, HoursFault> {
        date(piece).ok_or(HoursFault::NotHours)
    }
}

impl Piece for DayItem {
    ghost reading = { read_item };

    fn read(_alloc: Global, piece: &[Token]) -> Result<DayItem, HoursFault> {
        item(piece).ok_or(HoursFault::NotHours)
    }
}

impl Piece for TimeSpan {
    ghost reading = { read_span };

    fn read(_alloc: Global, piece: &[Token]) -> Result<TimeSpan, HoursFault> {
        span(piece).ok_or(HoursFault::NotHours)
    }
}

// The tokens after the first one, if there is one.
fn tail(tokens: &[Token]) -> Option<&[Token]>
    ensures { option_map (λ s. s.now) result ≡ tail_of tokens.now }
{
    match tokens {
        [] => None,
        [_, after @ ..] => Some(after),
    }
}

// Parses the pieces of a list, each in its turn.
fn listed<T: Piece + Drop>(
    alloc: Global,
    part: Part,
    tokens: &[Token],
) -> Result<Listing<T>, HoursFault>
    ensures { ParsesAs (λ v. v) result (all_read T.reading (pieces part tokens.now)) }
{
    let mut out = Listing::new(alloc);
    let mut rest = tokens;
    loop {
        let (piece, behind) = front(part, rest);
        let item = T::read(alloc, piece)?;
        out.push(item)?;
        match tail(behind) {
            None => return Ok(out),
            Some(after) => rest = after,
        }
    }
}

// Parses the dates of a rule, which may be empty.
#[tactic(auto, unfolding(crate::specs::Inside::Parser::read_dates, crate::specs::Inside::Parser::read_list))]
fn dates(alloc: Global, tokens: &[Token]) -> Result<DateSpans, HoursFault>
    ensures { ParsesAs (λ v. v) result (read_dates tokens.now) }
{
    if tokens.is_empty() {
        return Ok(Listing::new(alloc));
    }
    listed(alloc, Part::Item, tokens)
}

// Parses the days of a rule, which may be empty.
#[tactic(auto, unfolding(crate::specs::Inside::Parser::read_days, crate::specs::Inside::Parser::read_list))]
fn days(alloc: Global, tokens: &[Token]) -> Result<DayItems, HoursFault>
    ensures { ParsesAs (λ v. v) result (read_days tokens.now) }
{
    if tokens.is_empty() {
        return Ok(Listing::new(alloc));
    }
    listed(alloc, Part::Item, tokens)
}

// The span of a whole day.
fn whole(alloc: Global) -> Result<Spans, HoursFault>
    ensures { ParsesAs (λ v. v) result (Some whole_day) }
{
    let mut spans = Listing::new(alloc);
    spans.push(TimeSpan {
        start: 0,
        length: 1440,
    })?;
    Ok(spans)
}

// Parses the spans of a rule; without any, the rule has the whole day.
#[tactic(auto, unfolding(crate::specs::Inside::Parser::read_spans, crate::specs::Inside::Parser::read_list))]
fn spans(alloc: Global, tokens: &[Token]) -> Result<Spans, HoursFault>
    ensures { ParsesAs (λ v. v) result (read_spans tokens.now) }
{
    if tokens.is_empty() {
        return whole(alloc);
    }
    listed(alloc, Part::Item, tokens)
}

// Whether the tokens are the word `off` or `closed`.
fn means_off(tokens: &[Token]) -> bool
    ensures { result ≡ is_off tokens.now }
{
    matches!(tokens, [Token::Off])
}

// Parses the times of a rule.
#[tactic(auto, unfolding(crate::specs::Inside::Parser::read_times))]
fn times(alloc: Global, tokens: &[Token]) -> Result<RuleTimes, HoursFault>
    ensures { ParsesAs (λ v. v) result (read_times tokens.now) }
{
    if means_off(tokens) {
        return Ok(RuleTimes::Off);
    }
    let (front, behind) = front(Part::Spans, tokens);
    if !may_end(behind) {
        return Err(HoursFault::NotHours);
    }
    let spans = spans(alloc, front)?;
    Ok(RuleTimes::Spans(spans))
}

// Parses a rule from the token that follows its dates.
#[tactic(auto, unfolding(crate::specs::Inside::Parser::read_after))]
fn after_dates(alloc: Global, dates: DateSpans, tokens: &[Token]) -> Result<HoursRule, HoursFault>
    ensures { ParsesAs (λ v. v) result (read_after dates tokens.now) }
{
    if long_begins(tokens) {
        let Some(long) = long_span(tokens) else {
            return Err(HoursFault::NotHours);
        };
        return Ok(HoursRule {
            dates,
            days: Listing::new(alloc),
            times: RuleTimes::Long(long),
        });
    }
    let (front, behind) = front(Part::Days, tokens);
    let days = days(alloc, front)?;
    let times = times(alloc, behind)?;
    Ok(HoursRule { dates, days, times })
}

// The tokens without a colon that follows dates.
fn behind_colon<'a>(dates: &[Token], rest: &'a [Token]) -> &'a [Token]
    ensures { result.now ≡ without_colon dates.now rest.now }
{
    match (dates, rest) {
        ([_, ..], [Token::Colon, after @ ..]) => after,
        _ => rest,
    }
}

// Parses a rule that is not `24/7`.
#[tactic(auto, unfolding(crate::specs::Inside::Parser::read_dated))]
fn dated(alloc: Global, tokens: &[Token]) -> Result<HoursRule, HoursFault>
    ensures { ParsesAs (λ v. v) result (read_dated tokens.now) }
{
    let (front, behind) = front(Part::Dates, tokens);
    let dates = dates(alloc, front)?;
    after_dates(alloc, dates, behind_colon(front, behind))
}

// Parses a rule.
#[tactic(auto, unfolding(crate::specs::Inside::Parser::read_rule))]
fn rule(alloc: Global, tokens: &[Token]) -> Result<HoursRule, HoursFault>
    ensures { ParsesAs (λ v. v) result (read_rule tokens.now) }
{
    if let [Token::Always, after @ ..] = tokens {
        if !may_end(after) {
            return Err(HoursFault::NotHours);
        }
        return Ok(HoursRule {
            dates: Listing::new(alloc),
            days: Listing::new(alloc),
            times: RuleTimes::Spans(whole(alloc)?),
        });
    }
    if may_end(tokens) {
        return Err(HoursFault::NotHours);
    }
    dated(alloc, tokens)
}

impl Piece for HoursRule {
    ghost reading = { read_rule };

    fn read(alloc: Global, piece: &[Token]) -> Result<HoursRule, HoursFault> {
        rule(alloc, piece)
    }
}

/// The rules that a list of tokens is.
#[tactic(auto, unfolding(crate::specs::Inside::Parser::read_rules))]
pub fn rules(alloc: Global, tokens: &[Token]) -> Result<Listing<HoursRule>, HoursFault>
    ensures { ParsesAs (λ v. v) result (read_rules tokens.now) }
{
    listed(alloc, Part::Rule, tokens)
}
