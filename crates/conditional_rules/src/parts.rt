// Reads parts of conditions.
ghost use Rattle.std.specs.Prelude.{◌≡◌, ◌==◌, ◌||◌, true, false, IfOk};
ghost use Rattle.std.specs.List.{list_all};
ghost use Rattle.std.specs.Result.{IsErrOf};
ghost use Rattle.vehicle_classes.specs.Vehicles.{is_flag_byte};
ghost use Rattle.conditional_rules.specs.declared.conditional.Part.{Part as Piece};
ghost use Rattle.conditional_rules.specs.Accesses.{is_among};
ghost use Rattle.conditional_rules.specs.Conditions.{has_sign, reserved_words, is_flag, IsPart};

use crate::comparisons::{read_comparison, small_letter};
use crate::conditional::{Part, Word};
use crate::faults::ConditionalFault;
use opening_hours::{HoursFault, parse};
use route_base::{Listing, OutOfMemory};
use std::alloc::Global;

// Whether there is a sign of a comparison.
fn any_sign(text: &[u8]) -> bool
    ensures { result ≡ has_sign text.now }
{
    text.iter().any(|b| *b == b'<' || *b == b'=' || *b == b'>')
}

// Whether a word means something else than a flag.
fn is_reserved(word: &[u8]) -> bool
    ensures { result ≡ is_among reserved_words word.now }
{
    word == b"off".as_slice()
        || word == b"closed".as_slice()
        || word == b"open".as_slice()
        || word == b"and".as_slice()
}

// Whether each byte is a small letter or an underscore.
fn of_flag_bytes(bytes: &[u8]) -> bool
    ensures { result ≡ list_all is_flag_byte bytes.now }
{
    bytes.iter().all(|b| small_letter(*b) || *b == b'_')
}

// Whether the text is a flag.
#[tactic(auto, unfolding(crate::specs::Conditions::is_flag))]
fn flag(text: &[u8]) -> bool
    ensures { result ≡ is_flag text.now }
{
    match text {
        [] => false,
        [first, rest @ ..] => { small_letter(*first) && of_flag_bytes(rest) && !is_reserved(text) }
    }
}

// A copy of a word.
fn copied(alloc: Global, text: &[u8]) -> Result<Word, OutOfMemory>
    ensures { IfOk result (λ word. word ≡ text.now) }
{
    Ok(Listing::from_vec(text.to_vec(alloc)?))
}

// The comparison that the text is.
#[tactic(auto, using(crate::proofs::OnePart::no_comparison))]
fn compared(text: &[u8]) -> Result<Part, ConditionalFault>
    requires { has_sign text.now ≡ true }
    ensures found { IfOk result (λ part. IsPart text.now part) }
    ensures none { IsErrOf result ConditionalFault.NotConditional → (part : Piece)
        → IsPart text.now part → ⊥ }
{
    match read_comparison(text) {
        Some((quantity, comparison, value)) => Ok(Part::Compare(quantity, comparison, value)),
        None => Err(ConditionalFault::NotConditional),
    }
}

// The hours that the text is.
#[tactic(auto, using(crate::proofs::OnePart::no_hours))]
fn timed(alloc: Global, text: &[u8]) -> Result<Part, ConditionalFault>
    requires no_sign { has_sign text.now ≡ false }
    requires no_flag { is_flag text.now ≡ false }
    ensures found { IfOk result (λ part. IsPart text.now part) }
    ensures none { IsErrOf result ConditionalFault.NotConditional → (part : Piece)
        → IsPart text.now part → ⊥ }
{
    match parse(alloc, text) {
        Ok(hours) => Ok(Part::Times(hours)),
        Err(HoursFault::NotHours) => Err(ConditionalFault::NotConditional),
        Err(HoursFault::OutOfMemory) => Err(ConditionalFault::OutOfMemory),
    }
}

// The part that the text is.
fn any_part(alloc: Global, text: &[u8]) -> Result<Part, ConditionalFault>
    ensures found { IfOk result (λ part. IsPart text.now part) }
    ensures none { IsErrOf result ConditionalFault.NotConditional → (part : Piece)
        → IsPart text.now part → ⊥ }
{
    if any_sign(text) {
        compared(text)
    } else if flag(text) {
        Ok(Part::Flag(copied(alloc, text)?))
    } else {
        timed(alloc, text)
    }
}

/// The part that the text is: a comparison where it has a sign, or else a flag, or else hours. `NotConditional` exactly where
/// it is none. Linear in the text's length, in time and memory.
#[tactic(auto, using(crate::proofs::OnePart::one_part))]
pub(crate) fn read_part(alloc: Global, text: &[u8]) -> Result<Part, ConditionalFault>
    // The text is this part.
    ensures found { IfOk result (λ part. IsPart text.now part) }
    // It is no other.
    ensures only { IfOk result (λ part. (other : Piece) → IsPart text.now other → other ≡ part) }
    // A text that is refused is none.
    ensures none { IsErrOf result ConditionalFault.NotConditional → (part : Piece)
        → IsPart text.now part → ⊥ }
{
    any_part(alloc, text)
}
