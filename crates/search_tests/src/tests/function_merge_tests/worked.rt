// Functions of one piece or two points, against values that were worked out by hand.
ghost use Rattle.std.specs.Prelude.{◌≡◌, ◌∷◌, [], IfOk};
ghost use Rattle.cost_functions.specs.Lines.{IsPiece};

use cost_functions::{CostFn, Piece};
use function_merge::{
    Merged, can_shift, can_wait, cut, improve, improve_in_place, into_pruned, is_improved,
    is_shown_no_better, least, prune, shift, wait,
};
use minute_sets::MinuteSet;
use route_base::{Bound, OutOfMemory, Pair, Run};
use std::alloc::Global;

const RISING: Piece = Piece {
    lo: 0,
    hi: 10,
    cost: 0,
    slope: 2,
};

const FLAT: Piece = Piece {
    lo: 0,
    hi: 10,
    cost: 9,
    slope: 0,
};

fn of_one(alloc: Global, piece: Piece) -> Result<CostFn, OutOfMemory>
    requires { IsPiece piece }
    ensures { IfOk result (λ f. f ≡ piece ∷ []) }
{
    let mut pieces = Vec::new(alloc);
    pieces.push(piece)?;
    Ok(CostFn::from_pieces(pieces))
}

// The rising line up to minute 4, and the flat one from minute 5 on.
const LESSER: [Piece; 2] = [Piece { hi: 4, ..RISING }, Piece { lo: 5, ..FLAT }];

// Whether the merged function is the lesser of both, which is better in these runs.
fn is_lesser(merged: &Merged, improved: &[Run]) -> bool {
    merged.function.pieces() == LESSER.as_slice() && merged.improved.runs() == improved
}

#[test]
fn merges_where_lines_cross(rt: HostRuntime) {
    let f = of_one(rt.alloc(), RISING).expect(&rt, "memory");
    let g = of_one(rt.alloc(), FLAT).expect(&rt, "memory");
    assert!(rt; is_improved(&f, &g));
    let merged = least(rt.alloc(), &f, &g).expect(&rt, "memory");
    assert!(rt; is_lesser(&merged, &[Run { lo: 5, hi: 11 }]));
    let again = improve(rt.alloc(), merged.function, &g).expect(&rt, "memory");
    assert!(rt; is_lesser(&again, &[]));
}

// Whether the function is the lesser of both, and these are the runs in which it was improved.
fn is_lesser_in_place(function: &CostFn, improved: &MinuteSet, runs: &[Run]) -> bool {
    function.pieces() == LESSER.as_slice() && improved.runs() == runs
}

#[test]
fn merges_in_place(rt: HostRuntime) {
    let f = of_one(rt.alloc(), RISING).expect(&rt, "memory");
    let mut function = of_one(rt.alloc(), FLAT).expect(&rt, "memory");
    let improved = improve_in_place(rt.alloc(), &mut function, &f).expect(&rt, "memory");
    assert!(rt; is_lesser_in_place(&function, &improved, &[Run { lo: 0, hi: 5 }]));
    let again = improve_in_place(rt.alloc(), &mut function, &f).expect(&rt, "memory");
    assert!(rt; is_lesser_in_place(&function, &again, &[]));
}

#[test]
fn shifts_entries(rt: HostRuntime) {
    let f = of_one(rt.alloc(), RISING).expect(&rt, "memory");
    assert!(rt; can_shift(&f, 60, 60000));
    let entries = MinuteSet::whole(rt.alloc(), Run { lo: 3, hi: 6 }).expect(&rt, "memory");
    let moved = shift(rt.alloc(), &f, &entries, 60, 60000).expect(&rt, "memory");
    let later = Piece {
        lo: 63,
        hi: 65,
        cost: 60006,
        slope: 2,
    };
    assert!(rt; moved.pieces() == [later].as_slice());
}

#[test]
fn cuts_to_minutes(rt: HostRuntime) {
    let f = of_one(rt.alloc(), RISING).expect(&rt, "memory");
    let keep = MinuteSet::whole(rt.alloc(), Run { lo: 0, hi: 2 }).expect(&rt, "memory");
    let kept = cut(rt.alloc(), &f, &keep).expect(&rt, "memory");
    assert!(rt; kept.pieces() == [Piece { hi: 1, ..RISING }].as_slice());
}

// The rising line two minutes later and 7 dearer.
const LATER: Piece = Piece {
    lo: 2,
    hi: 12,
    cost: 7,
    slope: 2,
};

// A drive of two minutes at 7 ends on the later line; a cheaper one is better there, and a longer one ends after it.
#[test]
fn rejects_what_is_nowhere_better(rt: HostRuntime) {
    let f = of_one(rt.alloc(), RISING).expect(&rt, "memory");
    let later = of_one(rt.alloc(), LATER).expect(&rt, "memory");
    assert!(rt; is_shown_no_better(&later, f.pieces(), 2, 7));
    assert!(rt; !is_shown_no_better(&later, f.pieces(), 2, 6));
    assert!(rt; !is_shown_no_better(&later, f.pieces(), 3, 9));
}

// The rising line ends at minute 4, by the horizon and by a pair.
#[test]
fn prunes_by_the_horizon_and_by_pairs(rt: HostRuntime) {
    let f = of_one(rt.alloc(), RISING).expect(&rt, "memory");
    let bound = Bound {
        minutes: 5,
        cost: 100,
    };
    let pair = Pair {
        arrival: 9,
        cost: 110,
    };
    let in_time = prune(rt.alloc(), &f, 9, &[], bound).expect(&rt, "memory");
    assert!(rt; in_time.pieces() == [Piece { hi: 4, ..RISING }].as_slice());
    let cheap = into_pruned(f, 100, &[pair], bound);
    assert!(rt; cheap.pieces() == in_time.pieces());
}

// Runs of minutes at which waiting is allowed, and the values of each minute from 0 on after waits at 5 a minute until minute 6.
const WAITED: &[(&[Run], &[Option<u64>])] = &[
    (
        &[Run { lo: 0, hi: 6 }],
        &[
            Some(100),
            Some(105),
            Some(110),
            Some(90),
            Some(95),
            Some(100),
            Some(105),
            None,
        ],
    ),
    (
        &[Run { lo: 0, hi: 2 }, Run { lo: 4, hi: 6 }],
        &[Some(100), Some(105), Some(110), Some(90), None, None, None],
    ),
];

// Whether the function has these values, from minute 0 on.
fn has_values(f: &CostFn, values: &[Option<u64>]) -> bool {
    for t in 0..values.len() {
        if f.at(t as u64) != values[t] {
            return false;
        }
    }
    true
}

#[test]
fn waits_for_the_least(rt: HostRuntime) {
    let f = CostFn::from_points(rt.alloc(), &[(0, 100), (3, 90)]).expect(&rt, "memory");
    for (runs, values) in WAITED {
        assert!(rt; can_wait(&f, 5, 6));
        let allowed = MinuteSet::from_runs(rt.alloc(), runs).expect(&rt, "memory");
        let waited = wait(rt.alloc(), &f, 5, &allowed, 6).expect(&rt, "memory");
        assert!(rt; has_values(&waited, values), "{values:?}");
    }
}
