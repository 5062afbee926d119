// The canonical text of hours, by its tokens.
ghost use Rattle.std.specs.Prelude.{◌≡◌, ◌++◌, List, IfOk, OnOk};
ghost use Rattle.opening_hours.specs.CanonicalTokens.{listed, date_tokens, item_tokens, span_tokens, weekday_at, days_after};
ghost use Rattle.opening_hours.specs.CanonicalTokens.{long_tokens, times_tokens, rule_tokens, hours_tokens, hours_text};
ghost use Rattle.opening_hours.specs.Hours.{IsHours};
ghost use Rattle.opening_hours.specs.PlainText.{IsPlain};
ghost use Rattle.opening_hours.specs.declared.types.HoursRule.{HoursRule as Rule};

use crate::hours::Hours;
use crate::printer::text::spelled;
use crate::tokens::{Digits, Token};
use crate::types::{DateSpan, DayItem, HoursRule, LongSpan, RuleTimes, TimeSpan};
use calendar_days::Weekday;
use route_base::{Listing, OutOfMemory};
use std::alloc::Global;

/// Values that are printed as tokens.
trait Written: Copy {
    ghost use Rattle.opening_hours.specs.declared.tokens.Token.{Token};

    ghost written: { Self → List Token };

    fn write(self, out: &mut Listing<Token>) -> Result<(), OutOfMemory>
        ensures { OnOk result (out.new ≡ out.old ++ written self) };
}

// Appends the tokens.
fn push_all(out: &mut Listing<Token>, tokens: &[Token]) -> Result<(), OutOfMemory>
    ensures { OnOk result (out.new ≡ out.old ++ tokens.now) }
{
    for t in tokens {
        out.push(*t)?;
    }
    Ok(())
}

impl Written for DateSpan {
    ghost written = { date_tokens };

    fn write(self, out: &mut Listing<Token>) -> Result<(), OutOfMemory> {
        let tokens = [
            Token::Month(self.first_month),
            Token::Number(self.first_day, Digits::Two),
            Token::Dash,
            Token::Month(self.last_month),
            Token::Number(self.last_day, Digits::Two),
        ];
        push_all(out, &tokens)
    }
}

impl Written for DayItem {
    ghost written = { item_tokens };

    fn write(self, out: &mut Listing<Token>) -> Result<(), OutOfMemory> {
        match self {
            DayItem::Week(a, b) => {
                if a.index() == b.index() {
                    out.push(Token::Day(a))
                } else {
                    push_all(out, &[Token::Day(a), Token::Dash, Token::Day(b)])
                }
            }
            DayItem::Public => out.push(Token::Public),
            DayItem::School => out.push(Token::School),
            DayItem::Nth(a, k) => push_all(
                out,
                &[
                    Token::Day(a),
                    Token::LeftBracket,
                    Token::Number(k, Digits::One),
                    Token::RightBracket,
                ],
            ),
            DayItem::NthLast(a, k) => push_all(
                out,
                &[
                    Token::Day(a),
                    Token::LeftBracket,
                    Token::Dash,
                    Token::Number(k, Digits::One),
                    Token::RightBracket,
                ],
            ),
        }
    }
}

impl Written for TimeSpan {
    ghost written = { span_tokens };

    fn write(self, out: &mut Listing<Token>) -> Result<(), OutOfMemory> {
        let start = self.start as u64;
        let end = start + self.length as u64;
        let tokens = [
            Token::Time(start / 60, start % 60),
            Token::Dash,
            Token::Time(end / 60, end % 60),
        ];
        push_all(out, &tokens)
    }
}

// The weekday of an index, 0 for Monday.
fn weekday_of_index(index: u64) -> Weekday
    ensures { result ≡ weekday_at index }
{
    match index {
        0 => Weekday::Mo,
        1 => Weekday::Tu,
        2 => Weekday::We,
        3 => Weekday::Th,
        4 => Weekday::Fr,
        5 => Weekday::Sa,
        _ => Weekday::Su,
    }
}

// The weekday that follows another after a number of days.
fn weekday_after(days: u64, weekday: Weekday) -> Weekday
    ensures { result ≡ days_after days weekday }
{
    weekday_of_index((days % 7 + weekday.index() as u64) % 7)
}

// Appends the tokens of a long span.
fn write_long(out: &mut Listing<Token>, long: LongSpan) -> Result<(), OutOfMemory>
    ensures { OnOk result (out.new ≡ out.old ++ long_tokens long) }
{
    let start = long.start as u64;
    let end = start + long.length as u64;
    let minute = end % 1440;
    let tokens = [
        Token::Day(long.weekday),
        Token::Time(start / 60, start % 60),
        Token::Dash,
        Token::Day(weekday_after(end / 1440, long.weekday)),
        Token::Time(minute / 60, minute % 60),
    ];
    push_all(out, &tokens)
}

// Appends the tokens of the items, with commas between them.
fn write_list<T: Written>(out: &mut Listing<Token>, items: &[T]) -> Result<(), OutOfMemory>
    ensures { OnOk result (out.new ≡ out.old ++ listed Token.Comma T.written items.now) }
{
    let mut rest = items;
    while let [x, after @ ..] = rest {
        (*x).write(out)?;
        if !after.is_empty() {
            out.push(Token::Comma)?;
        }
        rest = after;
    }
    Ok(())
}

// Appends the tokens of the times of a rule.
fn write_times(out: &mut Listing<Token>, times: &RuleTimes) -> Result<(), OutOfMemory>
    ensures { OnOk result (out.new ≡ out.old ++ times_tokens times.now) }
{
    match times {
        RuleTimes::Off => out.push(Token::Off),
        RuleTimes::Spans(spans) => write_list(out, spans.as_slice()),
        RuleTimes::Long(l) => write_long(out, *l),
    }
}

// Appends the tokens of a rule.
fn write_rule(out: &mut Listing<Token>, rule: &HoursRule) -> Result<(), OutOfMemory>
    ensures { OnOk result (out.new ≡ out.old ++ rule_tokens rule.now) }
{
    write_list(out, rule.dates.as_slice())?;
    write_list(out, rule.days.as_slice())?;
    write_times(out, &rule.times)?;
    Ok(())
}

// Appends the tokens of the rules, with semicolons between them.
fn write_rules(out: &mut Listing<Token>, rules: &[HoursRule]) -> Result<(), OutOfMemory>
    ensures { OnOk result (out.new ≡ out.old ++ hours_tokens rules.now) }
{
    let mut rest = rules;
    while let [r, after @ ..] = rest {
        write_rule(out, r)?;
        if !after.is_empty() {
            out.push(Token::Semicolon)?;
        }
        rest = after;
    }
    Ok(())
}

/// The canonical text of hours: `; ` between rules, dates as `Jul 01-Aug 31`, weekdays as `Mo-Fr` or `Mo`, ordinals as `Su[1]` or
/// `Fr[-1]`, a span's end as its start and length give it (`22:00-30:00`), a long span's with its weekday and time of day. Linear in
/// the text's length.
pub fn print(alloc: Global, hours: &Hours) -> Result<Vec<u8>, OutOfMemory>
    ensures text { IfOk result (λ v. v.items ≡ hours_text hours.now) }
    // It is read as the same rules.
    ensures read { IfOk result (λ v. IsHours v.items hours.now) }
    // It is read as no others.
    ensures only { IfOk result (λ v. (rules : List Rule) → IsHours v.items rules → rules
        ≡ hours.now) }
    // It is safe to embed in a longer text.
    ensures plain { IfOk result (λ v. IsPlain v.items) }
{
    let mut tokens = Listing::new(alloc);
    write_rules(&mut tokens, hours.rules())?;
    Ok(spelled(alloc, tokens.as_slice())?)
}
