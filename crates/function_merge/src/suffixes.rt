// The pieces or runs that are left from a minute on.
ghost use Rattle.std.specs.Prelude.{◌≡◌, ◌<◌, ◌≤◌, ℕ, List, ◌∷◌, All, length};
ghost use Rattle.std.specs.List.{AllWithin};
ghost use Rattle.route_base.specs.declared.types.Run.{Run};
ghost use Rattle.cost_functions.specs.declared.pieces.Piece.{Piece};
ghost use Rattle.route_base.specs.Runs.{any_has, AreRuns};
ghost use Rattle.cost_functions.specs.Pieces.{value_at, ArePieces, AreSmallPieces};
ghost use Rattle.function_merge.specs.Inside.Suffixes.{AreLeftFrom};

use cost_functions::Piece;
use route_base::{Minute, Run};

// The number of pieces at the end that are passed one by one before a binary search in the others.
const PASSED_FIRST: usize = 8;

// The pieces without the first one, if that ends before the minute.
pub fn pieces_from(pieces: &[Piece], from: Minute) -> &[Piece]
    requires { ArePieces pieces.now }
    ensures pieces { ArePieces result.now }
    ensures values { (t : ℕ) → from ≤ t → value_at result.now t ≡ value_at pieces.now t }
    ensures length { length result.now ≤ length pieces.now }
    ensures shorter { (first : Piece) (rest : List Piece) → pieces.now ≡ first ∷ rest
        → first.hi < from → length result.now < length pieces.now }
{
    match pieces {
        [first, rest @ ..] if first.hi < from => rest,
        _ => pieces,
    }
}

// The runs without the first one, if that ends by the minute.
pub fn runs_from(runs: &[Run], from: Minute) -> &[Run]
    requires { AreRuns runs.now }
    ensures runs { AreRuns result.now }
    ensures minutes { (t : ℕ) → from ≤ t → any_has result.now t ≡ any_has runs.now t }
    ensures shorter { (first : Run) (rest : List Run) → runs.now ≡ first ∷ rest
        → first.hi ≤ from → length result.now < length runs.now }
    ensures length { length result.now ≤ length runs.now }
{
    match runs {
        [first, rest @ ..] if first.hi <= from => rest,
        _ => runs,
    }
}

// The pieces that do not end before the minute, where few do: they are passed one by one.
pub fn skip_pieces(pieces: &[Piece], from: Minute) -> &[Piece]
    requires pieces { ArePieces pieces.now }
    requires small { AreSmallPieces pieces.now }
    ensures left { AreLeftFrom from result.now }
    ensures values { (t : ℕ) → from ≤ t → value_at result.now t ≡ value_at pieces.now t }
{
    let mut left = pieces;
    'skip: while let [first, rest @ ..] = left {
        if from <= first.hi {
            break;
        }
        left = rest;
    }
    left
}

// The pieces that do not end before the minute, by a binary search.
pub fn find_pieces(pieces: &[Piece], from: Minute) -> &[Piece]
    requires pieces { ArePieces pieces.now }
    ensures pieces { ArePieces result.now }
    ensures small { AreSmallPieces pieces.now → AreSmallPieces result.now }
    ensures values { (t : ℕ) → from ≤ t → value_at result.now t ≡ value_at pieces.now t }
    ensures reach { All (λ p. from ≤ p.hi) result.now }
{
    &pieces[ending_before(pieces, from)..]
}

// The same, where mostly the first piece does not end before the minute.
pub fn pieces_since(pieces: &[Piece], from: Minute) -> &[Piece]
    requires { ArePieces pieces.now }
    ensures pieces { ArePieces result.now }
    ensures values { (t : ℕ) → from ≤ t → value_at result.now t ≡ value_at pieces.now t }
{
    match pieces {
        [first, ..] if from <= first.hi => pieces,
        _ => find_pieces(pieces, from),
    }
}

// The number of pieces that end before the minute. Most minutes that are asked for lie in the last pieces, so a few of these are
// passed one by one before the binary search.
pub fn ending_before(pieces: &[Piece], minute: Minute) -> usize
    requires { ArePieces pieces.now }
    ensures within { result ≤ length pieces.now }
    ensures before { AllWithin (λ p. p.hi < minute) pieces.now 0 result }
    ensures after { AllWithin (λ p. minute ≤ p.hi) pieces.now result (length pieces.now) }
{
    let mut count = pieces.len();
    let searched = count.saturating_sub(PASSED_FIRST);
    'back: while searched < count {
        if pieces[count - 1].hi < minute {
            return count;
        }
        count -= 1;
    }
    pieces[..count].partition_point(|piece| piece.hi < minute)
}

/// The number of pieces that begin by the minute: a few pieces from the end are passed one by one, and then a binary search.
pub fn beginning_by(pieces: &[Piece], minute: Minute) -> usize
    requires { ArePieces pieces.now }
    ensures within { result ≤ length pieces.now }
    ensures before { AllWithin (λ p. p.lo ≤ minute) pieces.now 0 result }
    ensures after { AllWithin (λ p. minute < p.lo) pieces.now result (length pieces.now) }
{
    let mut count = pieces.len();
    let searched = count.saturating_sub(PASSED_FIRST);
    'back: while searched < count {
        if pieces[count - 1].lo <= minute {
            return count;
        }
        count -= 1;
    }
    pieces[..count].partition_point(|piece| piece.lo <= minute)
}

// The runs that do not end by the minute, by a binary search.
pub fn find_runs(runs: &[Run], from: Minute) -> &[Run]
    requires { AreRuns runs.now }
    ensures runs { AreRuns result.now }
    ensures minutes { (t : ℕ) → from ≤ t → any_has result.now t ≡ any_has runs.now t }
    ensures reach { All (λ r. from < r.hi) result.now }
{
    &runs[runs.partition_point(|run| run.hi <= from)..]
}

// The same, where mostly the first run does not end by the minute.
pub fn runs_since(runs: &[Run], from: Minute) -> &[Run]
    requires { AreRuns runs.now }
    ensures runs { AreRuns result.now }
    ensures minutes { (t : ℕ) → from ≤ t → any_has result.now t ≡ any_has runs.now t }
{
    match runs {
        [first, ..] if from < first.hi => runs,
        _ => find_runs(runs, from),
    }
}
