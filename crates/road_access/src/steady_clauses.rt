// The minutes of a day throughout which the same clause decides.
ghost use Rattle.std.specs.Prelude.{◌≡◌, ◌<◌, ◌≤◌, List, Some, option_map};
ghost use Rattle.conditional_rules.specs.declared.conditional.Clause.{Clause as ClauseOf};
ghost use Rattle.road_access.specs.Inside.{DecidesSteadily, HoldSteadily, HoldsSteadily};

use crate::steady_hours::hours_steady;
use conditional_rules::{Conditional, Part};

// The number of minutes from this one on, at most `most`, at which a part holds, or at which it doesn't.
#[tactic(auto, using(crate::proofs::SteadyClauses::times_hold, crate::proofs::SteadyClauses::compare_holds, crate::proofs::SteadyClauses::flag_holds))]
fn part_steady(part: &Part, minute: u32, most: u32) -> u32
    requires minute { minute < 1440 }
    requires room { 1 ≤ most }
    ensures some { 1 ≤ result }
    ensures most { result ≤ most }
    ensures same { HoldsSteadily part.now minute result }
{
    match part {
        Part::Times(hours) => hours_steady(hours, minute, most),
        Part::Compare(..) => most,
        Part::Flag(_) => most,
    }
}

// The same of all parts together.
fn parts_steady(parts: &[Part], minute: u32, most: u32) -> u32
    requires minute { minute < 1440 }
    requires room { 1 ≤ most }
    ensures some { 1 ≤ result }
    ensures most { result ≤ most }
    ensures same { HoldSteadily parts.now minute result }
{
    let mut count = most;
    let mut left = parts;
    'parts: while let [part, rest @ ..] = left {
        count = part_steady(part, minute, count);
        left = rest;
    }
    count
}

// A number of minutes from this minute of a day on, one at least and at most `most`, at which the same clause decides, or none, for
// whatever vehicle and on whatever day: no hours of the clauses begin or end among them. Linear in the clauses' parts and the rules
// of their hours.
fn clauses_steady(conditional: &Conditional, minute: u32, most: u32) -> u32
    requires minute { minute < 1440 }
    requires room { 1 ≤ most }
    ensures some { 1 ≤ result }
    ensures most { result ≤ most }
    ensures same { DecidesSteadily conditional.now minute result }
{
    if most == 1 {
        return most;
    }
    let mut count = most;
    let mut left = conditional.clauses();
    'clauses: while let [clause, rest @ ..] = left {
        count = parts_steady(clause.parts.as_slice(), minute, count);
        left = rest;
    }
    count
}

// The same of a conditional value, if there is one.
pub fn value_steady(conditional: Option<&Conditional>, minute: u32, most: u32) -> u32
    requires minute { minute < 1440 }
    requires room { 1 ≤ most }
    ensures some { 1 ≤ result }
    ensures most { result ≤ most }
    ensures same { (clauses : List ClauseOf) → option_map (λ c. c.now) conditional.entry
        ≡ Some clauses → DecidesSteadily clauses minute result }
{
    match conditional {
        None => most,
        Some(conditional) => clauses_steady(conditional, minute, most),
    }
}
