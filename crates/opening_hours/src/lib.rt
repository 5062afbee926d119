//! Opening hours: a list of rules that is read from a text, and the minutes of local time that it covers.
//!
//! The notation is a subset of OpenStreetMap's `opening_hours` (its specification on the OpenStreetMap wiki): `24/7`, months and
//! dates, weekdays, the n-th or n-th last day of a weekday in its month as `Su[1]` or `Fr[-1]`, `PH` and `SH`, time spans, `off` and
//! `closed`, with `;` between rules. Whatever is outside the subset is refused and never ignored. One form is this project's own:
//! the long span from a time of one weekday to a time of another, as `Sa 22:00-Su 22:00`. Which minutes a text covers is this
//! project's own rule too: the last rule that matches a day governs the whole of it, a span belongs to the day on which it starts,
//! and an `off` on the next day doesn't cut it. Agreement with other evaluators of the notation isn't claimed.
//!
//! The law is in `specs/`. `Tokens` says how a text is cut by the longest match, `Grammar` which rules the tokens are, one case
//! for each form, and `Hours` puts both together as `IsHours`: `parse` meets it, and no text has two lists of rules
//! (`one_reading`). `Reading` is the same as a function, `hours_of`: it gives exactly the rules that a text has
//! (`computed_reading`). `CanonicalTokens` and `CanonicalText` are the canonical text, met by `print`: it is read as the same rules
//! (`canonical_reading`) and is safe to embed in a longer text (`PlainText`). `Holidays`, `Matching` (the governing rule of a day)
//! and `Coverage` are met by `covers` and `spans_on`. `Inside` is no law: its modules `Tokenizer` and `Parser` say what the
//! functions of these names compute, step by step, and `proofs/` shows that this meets the law.
#![tactic(auto)]

mod covering;
mod faults;
mod holidays;
mod hours;
mod laws;
mod matching;
mod parser;
mod printer;
mod threads;
mod tokenizer;
mod tokens;
mod types;
mod vocabulary;

pub use covering::{covers, spans_on};
pub use faults::HoursFault;
pub use holidays::Holidays;
pub use hours::{Hours, parse};
pub use laws::{canonical_reading, computed_reading, one_reading};
pub use printer::tokens::print;
pub use tokenizer::{behind_blanks, is_digit};
pub use types::{
    DateSpan, DateSpans, DayItem, DayItems, HoursRule, LongSpan, RuleTimes, Spans, TimeSpan,
};
