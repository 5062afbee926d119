// Parses clauses and conditions from texts that are cut at marks.
ghost use Rattle.std.specs.Prelude.{◌≡◌, ◌==◌, ◌+◌, ◌<◌, ◌∷◌, [], ◌++◌, ℕ, List, Option, Some, None, IfOk, false, IfSome, IfNone, length, take, drop};
ghost use Rattle.std.specs.Result.{IsErrOf};
ghost use Rattle.std.specs.List.{position};
ghost use Rattle.conditional_rules.specs.declared.conditional.Clause.{Clause as ClauseOf};
ghost use Rattle.conditional_rules.specs.declared.conditional.Part.{Part as PartOf};
ghost use Rattle.conditional_rules.specs.Cutting.{Cut, first_semicolon, first_and};
ghost use Rattle.conditional_rules.specs.Conditions.{has_parenthesis, has_at, IsSpacedPart, IsParts, IsCondition, IsClause, IsConditional};

use crate::access::read_value;
use crate::conditional::{Clause, Part, Parts};
use crate::cutting::{first_and, first_semicolon, trim};
use crate::faults::ConditionalFault;
use crate::parts::read_part;
use route_base::Listing;
use std::alloc::Global;

/// Things that are read from the pieces of a text that is cut at marks.
trait Piece {
    ghost use Rattle.std.specs.Prelude.{◌≡◌, ◌+◌, ◌<◌, ℕ, List, Option, Some, None, IfOk, IfSome, IfNone, length, take, drop};
    ghost use Rattle.std.specs.Result.{IsErrOf};

    // The place of the first mark of a text.
    ghost first_mark: { List ℕ → Option ℕ };

    // The length of a mark.
    ghost width: { ℕ };

    // The things that a text is.
    ghost Is: { List ℕ → Self → Type 0 };

    // The text before the first mark, and the text behind it.
    fn cut_once(text: &[u8]) -> Option<(&[u8], &[u8])>
        ensures parts { IfSome result (λ p. (i : ℕ) × (first_mark text.now ≡ Some i)
            × (p.0.now ≡ take i text.now) × (p.1.now ≡ drop (i + width) text.now)) }
        ensures less { IfSome result (λ p. length p.1.now < length text.now) }
        ensures none { IfNone result (first_mark text.now ≡ None) };

    // The thing that a piece is.
    fn read(alloc: Global, piece: &[u8]) -> Result<Self, ConditionalFault>
        ensures found { IfOk result (λ x. Is piece.now x) }
        ensures only { IfOk result (λ x. (other : Self) → Is piece.now other → other ≡ x) }
        ensures none { IsErrOf result ConditionalFault.NotConditional
            → (x : Self) → Is piece.now x → ⊥ };
}

impl Piece for Part {
    ghost first_mark = { first_and };

    ghost width = { 4 };

    ghost Is = { IsSpacedPart };

    fn cut_once(text: &[u8]) -> Option<(&[u8], &[u8])> {
        let place = first_and(text)?;
        Some((&text[..place], &text[place + 4..]))
    }

    fn read(alloc: Global, piece: &[u8]) -> Result<Part, ConditionalFault> {
        read_part(alloc, trim(piece))
    }
}

impl Piece for Clause {
    ghost first_mark = { first_semicolon };

    ghost width = { 1 };

    ghost Is = { IsClause };

    fn cut_once(text: &[u8]) -> Option<(&[u8], &[u8])> {
        let place = first_semicolon(text)?;
        Some((&text[..place], &text[place + 1..]))
    }

    fn read(alloc: Global, piece: &[u8]) -> Result<Clause, ConditionalFault> {
        read_clause(alloc, piece)
    }
}

// Reads the pieces of a text, each in its turn. Linear in the text's length, beside the reading of the pieces.
fn cut_pieces<T: Piece + Drop>(alloc: Global, text: &[u8]) -> Result<Listing<T>, ConditionalFault>
    ensures found { IfOk result (λ v. Cut T.first_mark T.width T.Is text.now v) }
    ensures only { IfOk result (λ v. (other : List T)
        → Cut T.first_mark T.width T.Is text.now other → other ≡ v) }
    ensures none { IsErrOf result ConditionalFault.NotConditional
        → (v : List T) → Cut T.first_mark T.width T.Is text.now v → ⊥ }
{
    let mut out = Listing::new(alloc);
    let mut rest = text;
    loop {
        let Some((piece, behind)) = T::cut_once(rest) else {
            let last = T::read(alloc, rest)?;
            out.push(last)?;
            return Ok(out);
        };
        let item = T::read(alloc, piece)?;
        out.push(item)?;
        rest = behind;
    }
}

// Whether a text has a parenthesis.
fn has_parentheses(text: &[u8]) -> bool
    ensures { result ≡ has_parenthesis text.now }
{
    text.iter().any(|b| *b == b'(' || *b == b')')
}

// The text between an opening parenthesis at the front and a closing one at the end.
fn between_parentheses(text: &[u8]) -> Option<&[u8]>
    ensures found { IfSome result (λ s. text.now ≡ 40 ∷ (s.now ++ 41 ∷ [])) }
    ensures none { IfNone result ((inner : List ℕ) → text.now ≡ 40 ∷ (inner ++ 41 ∷ []) → ⊥) }
{
    let [b'(', after @ ..] = text else {
        return None;
    };
    let [inner @ .., b')'] = after else {
        return None;
    };
    Some(inner)
}

// The text of the parts of a condition, if its parentheses allow any.
fn parts_text(text: &[u8]) -> Option<&[u8]>
    ensures found { IfSome result (λ s. (parts : List PartOf)
        → IsParts s.now parts → IsCondition text.now parts) }
    ensures only { IfSome result (λ s. (parts : List PartOf)
        → IsCondition text.now parts → IsParts s.now parts) }
    ensures none { IfNone result ((parts : List PartOf) → IsCondition text.now parts → ⊥) }
{
    if !has_parentheses(text) {
        return Some(text);
    }
    let inner = between_parentheses(text)?;
    if has_parentheses(inner) {
        return None;
    }
    Some(trim(inner))
}

// The parts of a condition.
fn read_condition(alloc: Global, text: &[u8]) -> Result<Parts, ConditionalFault>
    ensures found { IfOk result (λ parts. IsCondition text.now parts) }
    ensures only { IfOk result (λ parts. (other : List PartOf)
        → IsCondition text.now other → other ≡ parts) }
    ensures none { IsErrOf result ConditionalFault.NotConditional
        → (parts : List PartOf) → IsCondition text.now parts → ⊥ }
{
    let Some(inner) = parts_text(text) else {
        return Err(ConditionalFault::NotConditional);
    };
    cut_pieces(alloc, inner)
}

// The place of the first @.
fn first_at(text: &[u8]) -> Option<usize>
    ensures { result ≡ position (λ b. b == 64) text.now }
{
    text.iter().position(|b| *b == b'@')
}

// The text before the first @, and the text behind it.
#[tactic(auto, using(crate::proofs::FirstAt::at_parts, crate::proofs::FirstAt::at_before, crate::proofs::FirstAt::no_at))]
fn cut_at(text: &[u8]) -> Option<(&[u8], &[u8])>
    ensures parts { IfSome result (λ p. text.now ≡ p.0.now ++ 64 ∷ p.1.now) }
    ensures before { IfSome result (λ p. has_at p.0.now ≡ false) }
    ensures none { IfNone result (has_at text.now ≡ false) }
{
    let place = first_at(text)?;
    Some((&text[..place], &text[place + 1..]))
}

// The clause that a text is.
fn read_clause(alloc: Global, text: &[u8]) -> Result<Clause, ConditionalFault>
    ensures found { IfOk result (λ clause. IsClause text.now clause) }
    ensures only { IfOk result (λ clause. (other : ClauseOf)
        → IsClause text.now other → other ≡ clause) }
    ensures none { IsErrOf result ConditionalFault.NotConditional
        → (clause : ClauseOf) → IsClause text.now clause → ⊥ }
{
    let Some((value, condition)) = cut_at(text) else {
        return Err(ConditionalFault::NotConditional);
    };
    let Some(access) = read_value(trim(value)) else {
        return Err(ConditionalFault::NotConditional);
    };
    let parts = read_condition(alloc, trim(condition))?;
    Ok(Clause { access, parts })
}

/// The clauses that a text is. Linear in the text's length.
pub(crate) fn read_clauses(alloc: Global, text: &[u8]) -> Result<Listing<Clause>, ConditionalFault>
    ensures found { IfOk result (λ clauses. IsConditional text.now clauses) }
    ensures only { IfOk result (λ clauses. (other : List ClauseOf)
        → IsConditional text.now other → other ≡ clauses) }
    ensures none { IsErrOf result ConditionalFault.NotConditional
        → (clauses : List ClauseOf) → IsConditional text.now clauses → ⊥ }
{
    cut_pieces(alloc, text)
}
