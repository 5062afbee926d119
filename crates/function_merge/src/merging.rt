// The least of two functions, as a function of its own or in place of the first.
ghost use Rattle.std.specs.Prelude.{◌≡◌, ◌+◌, ◌<◌, ◌≤◌, ◌↔◌, ◌&&◌, nat_le, ℕ, Bool, true, false, Option, All, None, IsTrue, IfOk, IfSome, OnOk, OnErr, [], ◌++◌, length, take, drop};
ghost use Rattle.route_base.specs.Runs.{any_has, AreRuns};
ghost use Rattle.cost_functions.specs.Pieces.{value_at, ArePieces, AreSmallPieces};
ghost use Rattle.cost_functions.specs.Building.{AreBuilt, IsSettled};
ghost use Rattle.route_base.specs.declared.limits.TheConstants.{LAST_INSTANT};
ghost use Rattle.function_merge.specs.Least.{least_at, better_at, IsLeast};
ghost use Rattle.function_merge.specs.Inside.Segments.{piece_of, improves};
ghost use Rattle.function_merge.specs.Inside.Suffixes.{AreLeftFrom, AreParts};
ghost use Rattle.minute_sets.specs.Combination.{IsSwept};

use crate::lower_envelope::{Segment, next_segment};
use crate::suffixes::{beginning_by, ending_before, find_pieces, skip_pieces};
use cost_functions::{Builder, CostFn, Piece};
use minute_sets::MinuteSet;
use route_base::{Minute, OutOfMemory, Run};
use std::alloc::Global;
use std::mem;

/// The least of two functions, and the minutes at which the second is better than the first.
#[derive(Drop)]
pub struct Merged {
    pub function: CostFn,
    pub improved: MinuteSet,
}

/// The function that has at each minute the lesser of the values that are there; `improved` has the minutes at which g has a value
/// and f has none or a larger one. Linear in the number of pieces of both, in time and memory.
pub fn least(alloc: Global, f: &CostFn, g: &CostFn) -> Result<Merged, OutOfMemory>
    requires first { AreSmallPieces f.now }
    requires second { AreSmallPieces g.now }
    ensures values { IfOk result (λ merged. (t : ℕ) →
        value_at merged.function t ≡ least_at f.now g.now t) }
    ensures improved { IfOk result (λ merged. (t : ℕ) →
        any_has merged.improved t ≡ better_at f.now g.now t) }
    ensures built { IfOk result (λ merged. AreBuilt merged.function) }
{
    let spare_set = MinuteSet::empty(alloc);
    merged_from(spare_set, Builder::new(alloc), f.pieces(), g.pieces(), 0)
}

/// The same as `least` for a reduced function f that is given away. Where g is nowhere better, f stays as it is, and no memory is
/// asked for. Pieces of f that end before g is better stay where they are; the others are copied away in one block, and those that begin
/// behind g are copied back in one. Linear in the number of pieces of both between the ends of g.
pub fn improve(alloc: Global, f: CostFn, g: &CostFn) -> Result<Merged, OutOfMemory>
    requires first { AreBuilt f }
    requires second { AreSmallPieces g.now }
    ensures values { IfOk result (λ merged. (t : ℕ) →
        value_at merged.function t ≡ least_at f g.now t) }
    ensures improved { IfOk result (λ merged. (t : ℕ) →
        any_has merged.improved t ≡ better_at f g.now t) }
    ensures built { IfOk result (λ merged. AreBuilt merged.function) }
{
    let mut spare = Vec::new(alloc);
    improve_by(f, g, &mut spare, MinuteSet::empty(alloc))
}

// The same, with memory for the pieces of f that are merged, and for the minutes that are improved.
fn improve_by(
    f: CostFn,
    g: &CostFn,
    spare: &mut Vec<Piece>,
    spare_set: MinuteSet,
) -> Result<Merged, OutOfMemory>
    requires first { AreBuilt f }
    requires second { AreSmallPieces g.now }
    ensures { IfOk result (λ merged. IsLeast f g.now merged.function merged.improved) }
{
    match first_better(f.pieces(), g.pieces()) {
        Some(first) => improve_from(f, g, first, spare, spare_set),
        None => Ok(Merged {
            function: f,
            improved: spare_set.cleared(),
        }),
    }
}

// The same, where g is better at `first` and not before.
fn improve_from(
    f: CostFn,
    g: &CostFn,
    first: Minute,
    spare: &mut Vec<Piece>,
    spare_set: MinuteSet,
) -> Result<Merged, OutOfMemory>
    requires first { AreBuilt f }
    requires second { AreSmallPieces g.now }
    requires better { better_at f g.now first ≡ true }
    requires worse { (t : ℕ) → t < first → better_at f g.now t ≡ false }
    ensures { IfOk result (λ merged. IsLeast f g.now merged.function merged.improved) }
{
    let other = g.pieces();
    let own = with_room(f.into_pieces(), other.len())?;
    improve_within(own, other, first, spare, spare_set)
}

/// Makes f the least of f and g, and returns the minutes at which g was better. It costs as much as `improve`. Out of memory leaves
/// f without a piece.
pub fn improve_in_place(alloc: Global, f: &mut CostFn, g: &CostFn) -> Result<MinuteSet, OutOfMemory>
    requires first { AreBuilt f.old }
    requires second { AreSmallPieces g.now }
    ensures values { OnOk result ((t : ℕ) → value_at f.new t ≡ least_at f.old g.now t) }
    ensures improved { IfOk result (λ improved. (t : ℕ) →
        any_has improved t ≡ better_at f.old g.now t) }
    ensures built { OnOk result (AreBuilt f.new) }
    ensures err { OnErr result (f.new ≡ []) }
{
    let mut spare = Vec::new(alloc);
    improve_with_spare(alloc, f, g, &mut spare, MinuteSet::empty(alloc))
}

/// The same as `improve_in_place`, with the pieces of f that are merged copied to `spare`, and the minutes in the memory of
/// `spare_set`, whatever these hold.
pub fn improve_with_spare(
    alloc: Global,
    f: &mut CostFn,
    g: &CostFn,
    spare: &mut Vec<Piece>,
    spare_set: MinuteSet,
) -> Result<MinuteSet, OutOfMemory>
    requires first { AreBuilt f.old }
    requires second { AreSmallPieces g.now }
    ensures values { OnOk result ((t : ℕ) → value_at f.new t ≡ least_at f.old g.now t) }
    ensures improved { IfOk result (λ improved. (t : ℕ) →
        any_has improved t ≡ better_at f.old g.now t) }
    ensures built { AreBuilt f.new }
    ensures err { OnErr result (f.new ≡ []) }
{
    let Some(first) = first_better(f.pieces(), g.pieces()) else {
        return Ok(spare_set.cleared());
    };
    let taken = mem::replace(f, CostFn::empty(alloc));
    let merged = improve_from(taken, g, first, spare, spare_set)?;
    let Merged { function, improved } = merged;
    *f = function;
    Ok(improved)
}

// The pieces. Where there are none yet, they get room for `count` pieces and no more, since most functions stay as short as they
// begin.
fn with_room(pieces: Vec<Piece>, count: usize) -> Result<Vec<Piece>, OutOfMemory>
    ensures { IfOk result (λ own. own.items ≡ pieces.items) }
{
    let mut own = pieces;
    if own.is_empty() {
        own.reserve_exact(count)?;
    }
    Ok(own)
}

// The same for pieces, where g isn't better before `first`; those that begin behind g are put back in one copy.
fn improve_within(
    f: Vec<Piece>,
    g: &[Piece],
    first: Minute,
    spare: &mut Vec<Piece>,
    spare_set: MinuteSet,
) -> Result<Merged, OutOfMemory>
    requires first { AreBuilt f.items }
    requires second { ArePieces g.now }
    requires some { 1 ≤ length g.now }
    requires small { AreSmallPieces g.now }
    requires worse { (t : ℕ) → t < first → better_at f.items g.now t ≡ false }
    ensures { IfOk result (λ merged. IsLeast f.items g.now merged.function merged.improved) }
{
    let mut before = f;
    move_from(&mut before, first, spare)?;
    let (rest, tail) = split_behind(spare.as_slice(), last_minute(g));
    let merged = merged_behind(spare_set, before, rest, g, first)?;
    put_back(merged, tail)
}

// The pieces that begin by the minute, and those behind it.
fn split_behind(pieces: &[Piece], minute: Minute) -> (&[Piece], &[Piece])
    requires { AreBuilt pieces.now }
    ensures parts { AreParts pieces.now result.0.now result.1.now }
    ensures behind { All (λ p. minute < p.lo) result.1.now }
{
    pieces.split_at(beginning_by(pieces, minute))
}

// Moves the pieces that do not end before the minute to another list, whatever that holds.
fn move_from(
    pieces: &mut Vec<Piece>,
    minute: Minute,
    rest: &mut Vec<Piece>,
) -> Result<(), OutOfMemory>
    requires { AreBuilt pieces.old.items }
    ensures parts { OnOk result (AreParts pieces.old.items pieces.new.items rest.new.items) }
    ensures before { OnOk result (All (λ p. p.hi < minute) pieces.new.items) }
{
    let keep = ending_before(pieces, minute);
    cut_off(pieces, keep, rest)
}

// The same function with built pieces behind it.
fn put_back(merged: Merged, tail: &[Piece]) -> Result<Merged, OutOfMemory>
    requires front { AreBuilt merged.function }
    requires tail { AreBuilt tail.now }
    requires apart { All (λ p. All (λ q. q.hi < p.lo) merged.function) tail.now }
    ensures values { IfOk result (λ whole. (t : ℕ) →
        value_at whole.function t ≡ value_at (merged.function ++ tail.now) t) }
    ensures improved { IfOk result (λ whole. whole.improved ≡ merged.improved) }
    ensures built { IfOk result (λ whole. AreBuilt whole.function) }
{
    if tail.is_empty() {
        return Ok(merged);
    }
    let Merged { function, improved } = merged;
    let mut built = Builder::behind(function.into_pieces());
    built.extend(tail)?;
    Ok(Merged {
        function: built.finish(),
        improved,
    })
}

// The last minute of the pieces.
fn last_minute(pieces: &[Piece]) -> Minute
    requires pieces { ArePieces pieces.now }
    requires some { 1 ≤ length pieces.now }
    ensures { All (λ p. p.hi ≤ result) pieces.now }
{
    pieces[pieces.len() - 1].hi
}

// The same, where the pieces of f before `first` and those from there on are apart.
fn merged_behind(
    spare_set: MinuteSet,
    before: Vec<Piece>,
    rest: &[Piece],
    g: &[Piece],
    first: Minute,
) -> Result<Merged, OutOfMemory>
    requires parts { AreParts (before.items ++ rest.now) before.items rest.now }
    requires ended { All (λ p. p.hi < first) before.items }
    requires second { ArePieces g.now }
    requires small { AreSmallPieces g.now }
    requires worse { (t : ℕ) → t < first → better_at (before.items ++ rest.now) g.now t ≡ false }
    ensures { IfOk result (λ merged.
        IsLeast (before.items ++ rest.now) g.now merged.function merged.improved) }
{
    let start = first_minute(rest, first);
    let other = find_pieces(g, start);
    merged_from(spare_set, Builder::behind(before), rest, other, start)
}

// Moves the pieces from a place on to another list, whatever that holds.
fn cut_off(pieces: &mut Vec<Piece>, place: usize, rest: &mut Vec<Piece>) -> Result<(), OutOfMemory>
    requires { place ≤ length pieces.old.items }
    ensures items { OnOk result (pieces.new.items ≡ take place pieces.old.items) }
    ensures tail { OnOk result (rest.new.items ≡ drop place pieces.old.items) }
{
    rest.clear();
    rest.extend_from_slice(&pieces[place..])?;
    pieces.truncate(place);
    Ok(())
}

// The minute, or the first minute of the pieces if that is earlier.
fn first_minute(pieces: &[Piece], minute: Minute) -> Minute
    requires { ArePieces pieces.now }
    ensures upto { result ≤ minute }
    ensures first { All (λ p. result ≤ p.lo) pieces.now }
    ensures largest { (m : ℕ) → m < minute → All (λ p. m < p.lo) pieces.now → m < result }
{
    match pieces {
        [first, ..] => minute.min(first.lo),
        [] => minute,
    }
}

/// Whether g has a value at some minute at which f has none or a larger one. A binary search in f for the first minute of g, and
/// linear in the number of pieces of both from there on, until such a minute is found or g ends; no memory.
pub fn is_improved(f: &CostFn, g: &CostFn) -> bool
    requires first { AreSmallPieces f.now }
    requires second { AreSmallPieces g.now }
    ensures { IsTrue result ↔ ((t : ℕ) × (better_at f.now g.now t ≡ true)) }
{
    first_better(f.pieces(), g.pieces()).is_some()
}

// The first minute at which g is better.
fn first_better(f: &[Piece], g: &[Piece]) -> Option<Minute>
    requires first { ArePieces f.now }
    requires second { ArePieces g.now }
    requires first_small { AreSmallPieces f.now }
    requires second_small { AreSmallPieces g.now }
    ensures found { IfSome result (λ first. better_at f.now g.now first ≡ true) }
    ensures worse { IfSome result (λ first. (t : ℕ) → t < first → better_at f.now g.now t ≡ false) }
    ensures none { result ≡ None → (t : ℕ) → better_at f.now g.now t ≡ false }
{
    match g {
        [first, ..] => better_from(find_pieces(f, first.lo), g, first.lo),
        [] => None,
    }
}

// The first minute from `start` on at which g is better.
fn better_from(f: &[Piece], g: &[Piece], start: Minute) -> Option<Minute>
    requires first { AreLeftFrom start f.now }
    requires second { AreLeftFrom start g.now }
    ensures from { IfSome result (λ first. start ≤ first) }
    ensures found { IfSome result (λ first. better_at f.now g.now first ≡ true) }
    ensures worse { IfSome result (λ first. (t : ℕ) →
        start ≤ t → t < first → better_at f.now g.now t ≡ false) }
    ensures none { result ≡ None → (t : ℕ) → start ≤ t → better_at f.now g.now t ≡ false }
{
    let mut left = f;
    let mut other = g;
    let mut from: Minute = start;
    'sweep: while let Some(segment) = next_segment(left, other, from) {
        let piece = match segment {
            Segment::Kept(piece) => piece,
            Segment::Improved(piece) => return Some(piece.lo),
        };
        from = piece.hi + 1;
        left = skip_pieces(left, from);
        other = skip_pieces(other, from);
        let [_, ..] = other else { return None };
    }
    None
}

// The least values from `start` on, behind those that are built before it. The set may hold anything: its memory is used.
fn merged_from(
    spare_set: MinuteSet,
    before: Builder,
    f: &[Piece],
    g: &[Piece],
    start: Minute,
) -> Result<Merged, OutOfMemory>
    requires first { AreLeftFrom start f.now }
    requires second { AreLeftFrom start g.now }
    requires ended { All (λ p. p.hi < start) before }
    ensures values { IfOk result (λ merged. (wanted : ℕ → Option ℕ) → IsSettled wanted before start
        → ((t : ℕ) → start ≤ t → wanted t ≡ least_at f.now g.now t)
        → (t : ℕ) → value_at merged.function t ≡ wanted t) }
    ensures improved { IfOk result (λ merged. (t : ℕ) →
        any_has merged.improved t ≡ (nat_le start t && better_at f.now g.now t)) }
    ensures built { IfOk result (λ merged. AreBuilt merged.function) }
{
    let mut built = before;
    let mut improved = spare_set.cleared();
    let mut left = f;
    let mut other = g;
    let mut from: Minute = start;
    'sweep: while let Some(segment) = next_segment(left, other, from) {
        let piece = segment.piece();
        built.push(piece)?;
        mark(&mut improved, segment)?;
        from = piece.hi + 1;
        left = skip_pieces(left, from);
        other = skip_pieces(other, from);
    }
    Ok(Merged {
        function: built.finish(),
        improved,
    })
}

// Adds the minutes of the segment, if it improves.
fn mark(improved: &mut MinuteSet, segment: Segment) -> Result<(), OutOfMemory>
    requires runs { AreRuns improved.old }
    requires later { All (λ r. r.lo ≤ (piece_of segment).lo) improved.old }
    requires filled { (piece_of segment).lo ≤ (piece_of segment).hi }
    requires minutes { (piece_of segment).hi ≤ LAST_INSTANT }
    ensures runs { AreRuns improved.new }
    ensures marked { OnOk result ((wanted : ℕ → Bool)
        → IsSwept wanted improved.old (piece_of segment).lo
        → ((t : ℕ) → (piece_of segment).lo ≤ t → t ≤ (piece_of segment).hi
        → wanted t ≡ improves segment)
        → IsSwept wanted improved.new ((piece_of segment).hi + 1)) }
{
    if let Segment::Improved(piece) = segment {
        improved.append(Run {
            lo: piece.lo,
            hi: piece.hi + 1,
        })?;
    }
    Ok(())
}
