// Writes an explanation as plain lines.
ghost use Rattle.std.specs.Prelude.{◌≡◌, ◌++◌, OnOk, IfOk};
ghost use Rattle.trip_explain.specs.ExplanationText.{scope_label_of, kind_label_of};
ghost use Rattle.trip_explain.specs.ExplanationText.{reason_text, rule_text, worded_pair_line, better_line};
ghost use Rattle.trip_explain.specs.ExplanationText.{unlawful_line, explanation_text};

use crate::explanation::{Explanation, Why};
use line_texts::{push_field, push_text, push_thousandths};
use route_base::{OutOfMemory, Pair};
use std::alloc::Global;
use vehicle_classes::{Key, key_label};

// The word for the scope of a rule.
fn scope_label(of_arc: bool) -> &'static str
    ensures { result.now ≡ scope_label_of of_arc }
{
    if of_arc { "arc" } else { "area" }
}

// The word for the kind of a rule.
fn kind_label(conditional: bool) -> &'static str
    ensures { result.now ≡ kind_label_of conditional }
{
    if conditional { "conditional" } else { "plain" }
}

// Appends the words of a rule.
fn push_rule(
    out: &mut Vec<u8>,
    of_arc: bool,
    key: Key,
    conditional: bool,
    clause: u64,
) -> Result<(), OutOfMemory>
    ensures { OnOk result
        (out.new.items ≡ out.old.items ++ rule_text of_arc key conditional clause) }
{
    push_text(out, "rule ")?;
    push_text(out, scope_label(of_arc))?;
    push_text(out, " ")?;
    push_text(out, key_label(key))?;
    push_text(out, " ")?;
    push_text(out, kind_label(conditional))?;
    push_field(out, " ", clause)
}

// Appends the words of a reason.
fn push_reason(out: &mut Vec<u8>, why: Why) -> Result<(), OutOfMemory>
    ensures { OnOk result (out.new.items ≡ out.old.items ++ reason_text why) }
{
    match why {
        Why::Tail => push_text(out, "tail"),
        Why::Late => push_text(out, "late"),
        Why::Unrated => push_text(out, "unrated"),
        Why::Shut => push_text(out, "shut"),
        Why::Goal => push_text(out, "goal"),
        Why::Rule {
            of_arc,
            key,
            conditional,
            clause,
        } => push_rule(out, of_arc, key, conditional, clause),
        Why::Closure(number) => push_field(out, "closure ", number),
    }
}

// Appends the line of a word and a pair.
fn push_pair(out: &mut Vec<u8>, word: &str, pair: Pair) -> Result<(), OutOfMemory>
    ensures { OnOk result (out.new.items ≡ out.old.items ++ worded_pair_line word.now pair) }
{
    push_field(out, word, pair.arrival)?;
    push_text(out, " ")?;
    push_thousandths(out, pair.cost)?;
    push_text(out, "\n")
}

// Appends the line of the pair that is better, if there is one.
fn push_better(out: &mut Vec<u8>, better: Option<Pair>) -> Result<(), OutOfMemory>
    ensures { OnOk result (out.new.items ≡ out.old.items ++ better_line better) }
{
    match better {
        Some(pair) => push_pair(out, "dominated ", pair),
        None => push_text(out, "undominated\n"),
    }
}

// Appends the line of an unlawful leg.
fn push_unlawful(out: &mut Vec<u8>, leg: u64, minute: u64, why: Why) -> Result<(), OutOfMemory>
    ensures { OnOk result (out.new.items ≡ out.old.items ++ unlawful_line leg minute why) }
{
    push_field(out, "unlawful ", leg)?;
    push_field(out, " ", minute)?;
    push_text(out, " ")?;
    push_reason(out, why)?;
    push_text(out, "\n")
}

/// The text of an explanation. Lawful legs have a line with their arrival in Unix minutes and their cost, with three decimals, and a
/// line with the pair that is better, if there is one. Unlawful legs have one line: the leg, the minute and the reason; `better` is
/// then left out. In constant time.
pub fn explain_text(
    alloc: Global,
    explanation: Explanation,
    better: Option<Pair>,
) -> Result<Vec<u8>, OutOfMemory>
    ensures { IfOk result (λ text. text.items ≡ explanation_text explanation better) }
{
    let mut out = Vec::new(alloc);
    match explanation {
        Explanation::Lawful(pair) => {
            push_pair(&mut out, "lawful ", pair)?;
            push_better(&mut out, better)?;
        }
        Explanation::Unlawful { leg, minute, why } => push_unlawful(&mut out, leg, minute, why)?,
    }
    Ok(out)
}
