// The canonical text of conditional values.
ghost use Rattle.std.specs.Prelude.{◌≡◌, ◌++◌, List, map, codes, IfOk, OnOk};
ghost use Rattle.conditional_rules.specs.declared.conditional.Clause.{Clause as ClauseOf};
ghost use Rattle.conditional_rules.specs.CanonicalText.{part_text, access_text, joined, clause_text, conditional_text};
ghost use Rattle.conditional_rules.specs.Conditions.{IsConditional};

mod comparisons;

use crate::access::Access;
use crate::conditional::{Clause, Conditional, Part};
use crate::printer::comparisons::push_comparison;
use route_base::OutOfMemory;
use std::alloc::Global;

// The canonical word of an access.
fn access_word(access: Access) -> &'static [u8]
    ensures { result.now ≡ access_text access }
{
    match access {
        Access::Free => b"yes",
        Access::Barred => b"no",
        Access::Purpose => b"destination",
    }
}

// Appends a part.
fn push_part(alloc: Global, out: &mut Vec<u8>, part: &Part) -> Result<(), OutOfMemory>
    ensures { OnOk result (out.new.items ≡ out.old.items ++ part_text part.now) }
{
    match part {
        Part::Compare(quantity, comparison, value) => {
            push_comparison(out, *quantity, *comparison, *value)?
        }
        Part::Flag(word) => out.extend_from_slice(word.as_slice())?,
        Part::Times(hours) => {
            let text = opening_hours::print(alloc, hours)?;
            out.extend_from_slice(text.as_slice())?
        }
    }
    Ok(())
}

// Appends parts, with the word AND between them.
fn push_parts(alloc: Global, out: &mut Vec<u8>, parts: &[Part]) -> Result<(), OutOfMemory>
    ensures { OnOk result (
        out.new.items ≡ out.old.items ++ joined (codes " AND ") (map part_text parts.now)) }
{
    let mut rest = parts;
    while let [part, after @ ..] = rest {
        push_part(alloc, out, part)?;
        if !after.is_empty() {
            out.extend_from_slice(b" AND ")?;
        }
        rest = after;
    }
    Ok(())
}

// Appends a clause.
fn push_clause(alloc: Global, out: &mut Vec<u8>, clause: &Clause) -> Result<(), OutOfMemory>
    ensures { OnOk result (out.new.items ≡ out.old.items ++ clause_text clause.now) }
{
    out.extend_from_slice(access_word(clause.access))?;
    out.extend_from_slice(b" @ (")?;
    push_parts(alloc, out, clause.parts.as_slice())?;
    out.extend_from_slice(b")")?;
    Ok(())
}

// Appends clauses, with a semicolon and a blank between them.
fn push_clauses(alloc: Global, out: &mut Vec<u8>, clauses: &[Clause]) -> Result<(), OutOfMemory>
    ensures { OnOk result (out.new.items ≡ out.old.items ++ conditional_text clauses.now) }
{
    let mut rest = clauses;
    while let [clause, after @ ..] = rest {
        push_clause(alloc, out, clause)?;
        if !after.is_empty() {
            out.extend_from_slice(b"; ")?;
        }
        rest = after;
    }
    Ok(())
}

/// The canonical text of a conditional value: `; ` between clauses, each as `no @ (weight>7.500 AND Mo-Fr 07:00-09:00)`. The access is
/// `yes`, `no` or `destination`, a size has all its decimals and no unit, and hours are as `opening_hours::print` gives them. Linear in
/// the text's length, in time and memory.
pub fn print(alloc: Global, conditional: &Conditional) -> Result<Vec<u8>, OutOfMemory>
    ensures text { IfOk result (λ t. t.items ≡ conditional_text conditional.now) }
    // It is read as the same clauses.
    ensures read { IfOk result (λ t. IsConditional t.items conditional.now) }
    // It is read as no others.
    ensures only { IfOk result (λ t. (others : List ClauseOf) → IsConditional t.items others
        → others ≡ conditional.now) }
{
    let mut out = Vec::new(alloc);
    push_clauses(alloc, &mut out, conditional.clauses())?;
    Ok(out)
}
