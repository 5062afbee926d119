// Functions of a few pieces, against values that were worked out by hand.
ghost use Rattle.std.specs.Prelude.{IfOk};
ghost use Rattle.cost_functions.specs.Pieces.{AreSmallPieces};

use cost_functions::{Builder, CostFn, Piece, held_for};
use route_base::{Cost, Minute, OutOfMemory};
use std::alloc::Global;

const LONG: Piece = Piece {
    lo: 1,
    hi: 3,
    cost: 5,
    slope: 2,
};

// Single minutes: the first two of the long piece, and two after it.
const FIRST: Piece = Piece {
    lo: 1,
    hi: 1,
    cost: 5,
    slope: 0,
};

const SECOND: Piece = Piece {
    lo: 2,
    hi: 2,
    cost: 7,
    slope: 0,
};

const FREE: Piece = Piece {
    lo: 5,
    hi: 5,
    cost: 0,
    slope: 0,
};

const LATE: Piece = Piece {
    lo: 7,
    hi: 7,
    cost: 4,
    slope: 0,
};

// The values of each minute from 0 on.
const VALUES: [Option<u64>; 7] = [None, Some(5), Some(7), Some(9), None, Some(0), None];

// Whether the function has these values.
fn has_values(f: &CostFn) -> bool {
    for t in 0..VALUES.len() {
        if f.at(t as u64) != VALUES[t] {
            return false;
        }
    }
    true
}

const POINTS: &[(Minute, Cost)] = &[(1, 5), (2, 7), (3, 9), (5, 0)];

const MADE: &[Piece] = &[LONG, FREE];

const SINGLE: &[Piece] = &[LATE];

// Whether the function of the points has their pieces and values.
fn is_made(alloc: Global) -> Result<bool, OutOfMemory> {
    let made = CostFn::from_points(alloc, POINTS)?;
    Ok(made.pieces() == MADE && has_values(&made))
}

// Whether the function of one point is one piece.
fn is_single(alloc: Global) -> Result<bool, OutOfMemory> {
    let pieces = CostFn::single(alloc, 7, 4)?.into_pieces();
    Ok(pieces.as_slice() == SINGLE)
}

#[test]
fn makes_functions_of_points(rt: HostRuntime) {
    assert!(rt; is_made(rt.alloc()) == Ok(true));
    assert!(rt; is_single(rt.alloc()) == Ok(true));
    assert!(rt; CostFn::empty(rt.alloc()).at(7) == None);
    assert!(rt; LONG.value(3) == 9 && held_for(7, 3, 1, 10) == 3);
}

// The function of the first two minutes, in a piece each.
fn apart(alloc: Global) -> Result<CostFn, OutOfMemory>
    ensures { IfOk result AreSmallPieces }
{
    Ok(CostFn::from_pieces(vec![in alloc; FIRST, SECOND]?))
}

// The same, built piece by piece.
fn built(alloc: Global) -> Result<CostFn, OutOfMemory> {
    let mut built = Builder::new(alloc);
    built.push(FIRST)?;
    built.extend(&[SECOND])?;
    let mut longer = Builder::behind(built.finish().into_pieces());
    longer.extend(&[])?;
    Ok(longer.finish())
}

// The first two minutes in one piece.
const SHORT: &[Piece] = &[Piece { hi: 2, ..LONG }];

// Whether the pieces of the first two minutes become one.
fn is_reduced(alloc: Global) -> Result<bool, OutOfMemory> {
    let apart = apart(alloc)?;
    let reduced = apart.reduce(alloc)?;
    Ok(!apart.is_reduced() && reduced.is_reduced() && reduced.pieces() == SHORT)
}

// Whether the same is built.
fn is_built(alloc: Global) -> Result<bool, OutOfMemory> {
    let built = built(alloc)?;
    Ok(built.pieces() == SHORT)
}

#[test]
fn reduces_and_builds(rt: HostRuntime) {
    assert!(rt; is_reduced(rt.alloc()) == Ok(true));
    assert!(rt; is_built(rt.alloc()) == Ok(true));
}
