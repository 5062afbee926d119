// Pairs that rise in arrival and fall in cost.
ghost use Rattle.std.specs.Prelude.{◌≡◌, ◌↔◌, ◌≤◌, ◌<◌, ℕ, IsTrue, filter, not, slice_index_or, length, OnOk};
ghost use Rattle.route_base.specs.Front.{RiseAndFall};
ghost use Rattle.route_base.specs.Relaxing.{HasPair};
ghost use Rattle.route_base.specs.declared.types.Pair.{Pair};
ghost use Rattle.route_base.specs.declared.limits.TheConstants.{LAST_INSTANT, HIGHEST_COST};
ghost use Rattle.cost_functions.specs.Pieces.{value_at, AreSmallPieces};
ghost use Rattle.propagation.specs.Inside.Pairs.{AreBorders, TakesBorders, TakesPair, TakesPairs, IsPutIn, is_as_bad};

use cost_functions::CostFn;
use route_base::{Minute, OutOfMemory, Pair};

/// Adds the pairs of the costs that are offered to the goal, and takes out those that are worse. Only the first minute of a piece
/// can be one, since the later ones cost no less. The borders follow.
pub fn add_pairs(
    pairs: &mut Vec<Pair>,
    borders: &mut Vec<Pair>,
    offer: &CostFn,
) -> Result<(), OutOfMemory>
    requires trade { RiseAndFall pairs.old.items }
    requires borders { AreBorders pairs.old.items borders.old.items }
    requires small { AreSmallPieces offer.now }
    ensures takes { OnOk result
        (TakesPairs (value_at offer.now) pairs.old.items pairs.new.items) }
    ensures borders { OnOk result (AreBorders pairs.new.items borders.new.items) }
{
    for piece in offer.pieces() {
        let pair = Pair {
            arrival: piece.lo,
            cost: piece.cost,
        };
        add_pair(pairs, pair)?;
        add_borders(borders, pair)?;
    }
    Ok(())
}

// Adds the borders of a pair: it a thousandth dearer, and it a minute later. One of the two is no worse exactly where the pair is
// better.
fn add_borders(borders: &mut Vec<Pair>, pair: Pair) -> Result<(), OutOfMemory>
    requires trade { RiseAndFall borders.old.items }
    requires arrival { pair.arrival ≤ LAST_INSTANT }
    requires cost { pair.cost ≤ HIGHEST_COST }
    ensures { OnOk result (TakesBorders pair borders.old.items borders.new.items) }
{
    let dearer = Pair {
        cost: pair.cost + 1,
        ..pair
    };
    let later = Pair {
        arrival: pair.arrival + 1,
        ..pair
    };
    add_pair(borders, dearer)?;
    add_pair(borders, later)?;
    Ok(())
}

// Adds a pair where none is as good, and takes out those that are worse.
fn add_pair(pairs: &mut Vec<Pair>, pair: Pair) -> Result<(), OutOfMemory>
    requires trade { RiseAndFall pairs.old.items }
    ensures { OnOk result (TakesPair pair pairs.old.items pairs.new.items) }
{
    if has_as_good(pairs, pair) {
        return Ok(());
    }
    drop_worse(pairs, pair);
    put_in(pairs, pair)?;
    Ok(())
}

// Whether some pair arrives no later and costs no more: the last that arrives no later costs the least of these.
fn has_as_good(pairs: &[Pair], pair: Pair) -> bool
    requires trade { RiseAndFall pairs.now }
    ensures { IsTrue result ↔ HasPair pairs.now pair.arrival pair.cost }
{
    let count = pairs.partition_point(|p| p.arrival <= pair.arrival);
    if count == 0 {
        return false;
    }
    pairs[count - 1].cost <= pair.cost
}

// Takes out what arrives no earlier and costs no less.
fn drop_worse(pairs: &mut Vec<Pair>, pair: Pair)
    ensures { pairs.new.items ≡ filter (λ q. not (is_as_bad pair q)) pairs.old.items }
{
    pairs.retain(|q| !(pair.arrival <= q.arrival && pair.cost <= q.cost));
}

// Puts the pair in before the first that arrives no earlier.
fn put_in(pairs: &mut Vec<Pair>, pair: Pair) -> Result<(), OutOfMemory>
    requires trade { RiseAndFall pairs.old.items }
    ensures { OnOk result (IsPutIn pair pairs.old.items pairs.new.items) }
{
    let place = first_from(pairs, pair.arrival);
    pairs.insert(place, pair)?;
    Ok(())
}

// The place of the first pair that arrives at this minute or later.
fn first_from(pairs: &[Pair], arrival: Minute) -> usize
    requires trade { RiseAndFall pairs.now }
    ensures within { result ≤ length pairs.now }
    ensures before { (k : ℕ) (d : Pair) → k < result → (slice_index_or pairs.now k d).arrival
        < arrival }
    ensures after { (k : ℕ) (d : Pair) → result ≤ k → k < length pairs.now → arrival
        ≤ (slice_index_or pairs.now k d).arrival }
{
    pairs.partition_point(|p| p.arrival < arrival)
}
