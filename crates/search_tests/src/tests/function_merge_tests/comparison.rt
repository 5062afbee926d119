// Random functions, against lists of their values.
ghost use Rattle.std.specs.Prelude.{◌<◌, ◌≤◌, ◌+◌, All, AllPairs, IfOk, OnOk};
ghost use Rattle.cost_functions.specs.Building.{AreBuilt};
ghost use Rattle.route_base.specs.Front.{RiseAndFall};

use super::plain_lists::{is_better, lesser, pruned, shifted, value, waited};
use crate::tests::engines::random_nets::Random;
use cost_functions::CostFn;
use function_merge::{
    can_shift, can_wait, cut_with_spare, improve_with_spare, into_pruned, is_improved, least,
    prune, shift, shift_and_prune, shift_with_spare, wait_with_spare,
};
use minute_sets::MinuteSet;
use route_base::{Bound, OutOfMemory, Pair, Run};
use std::alloc::Global;
use std::process::Abort;
use std::test::Fail;

const SEED: u64 = 20201207;

const CASES: u64 = 5000;

// Minutes from 0 on that have values.
const MINUTES: usize = 24;

// Minutes from 0 on at which results are compared.
const COMPARED: u64 = 40;

// Values on a few lines, with gaps.
fn random_values(random: &mut Random) -> [Option<u64>; MINUTES] {
    let mut values = [None; MINUTES];
    let mut cost = 0;
    let mut slope = 0;
    let mut is_there = false;
    for t in 0..MINUTES {
        if random.below(4) == 0 {
            is_there = random.below(4) != 0;
            cost = random.below(40);
            slope = random.below(5);
        }
        if is_there {
            values[t] = Some(cost);
        }
        cost = cost.saturating_add(slope);
    }
    values
}

fn random_keep(random: &mut Random) -> [bool; MINUTES] {
    let mut keep = [false; MINUTES];
    let mut is_kept = false;
    for t in 0..MINUTES {
        if random.below(3) == 0 {
            is_kept = random.below(2) == 0;
        }
        keep[t] = is_kept;
    }
    keep
}

fn function_of(alloc: Global, values: &[Option<u64>]) -> Result<CostFn, OutOfMemory>
    ensures { IfOk result AreBuilt }
{
    let mut points = Vec::new(alloc);
    for t in 0..MINUTES as u64 {
        add_point(&mut points, t, value(values, t))?;
    }
    CostFn::from_points(alloc, &points)
}

fn add_point(points: &mut Vec<(u64, u64)>, t: u64, cost: Option<u64>) -> Result<(), OutOfMemory>
    requires rising { AllPairs (λ p q. p.0 < q.0) points.old.items }
    requires before { All (λ p. p.0 < t) points.old.items }
    requires costs { All (λ p. p.1 ≤ 1000) points.old.items }
    ensures rising { OnOk result (AllPairs (λ p q. p.0 < q.0) points.new.items) }
    ensures before { OnOk result (All (λ p. p.0 < t + 1) points.new.items) }
    ensures costs { OnOk result (All (λ p. p.1 ≤ 1000) points.new.items) }
{
    if let Some(x) = cost {
        points.push((t, x.min(1000)))?;
    }
    Ok(())
}

// The minutes that are kept.
fn set_of(alloc: Global, keep: &[bool]) -> Result<MinuteSet, OutOfMemory> {
    let mut runs = [Run { lo: 0, hi: 0 }; MINUTES];
    for t in 0..MINUTES {
        if t < keep.len() && keep[t] {
            runs[t] = Run {
                lo: t as u64,
                hi: t as u64 + 1,
            };
        }
    }
    MinuteSet::from_runs(alloc, &runs)
}

fn random_pairs(alloc: Global, random: &mut Random) -> Result<Vec<Pair>, OutOfMemory>
    ensures { IfOk result (λ pairs. RiseAndFall pairs.items) }
{
    let mut pairs = Vec::new(alloc);
    let mut arrival = random.below(MINUTES as u64);
    let mut cost = 20 + random.below(60);
    'pairs: while random.below(4) != 0 && 10 < cost {
        pairs.push(Pair { arrival, cost })?;
        arrival += 1 + random.below(6);
        cost -= 1 + random.below(10);
    }
    Ok(pairs)
}

fn has_values(f: &CostFn, values: &[Option<u64>]) -> bool {
    for t in 0..COMPARED {
        if f.at(t) != value(values, t) {
            return false;
        }
    }
    f.is_reduced()
}

// Whether the function has the lesser values of the two lists, and is reduced.
fn is_least(f: &CostFn, a: &[Option<u64>], b: &[Option<u64>]) -> bool {
    for t in 0..COMPARED {
        if f.at(t) != lesser(value(a, t), value(b, t)) {
            return false;
        }
    }
    f.is_reduced()
}

// Whether the set has the minutes at which the second list is better.
fn has_better(set: &MinuteSet, a: &[Option<u64>], b: &[Option<u64>]) -> bool {
    for t in 0..COMPARED {
        if set.contains(t) != is_better(value(a, t), value(b, t)) {
            return false;
        }
    }
    true
}

// Whether the second list is better at some minute.
fn is_any_better(a: &[Option<u64>], b: &[Option<u64>]) -> bool {
    for t in 0..COMPARED {
        if is_better(value(a, t), value(b, t)) {
            return true;
        }
    }
    false
}

fn merges_as_lists<R: Abort + AllocGlobal>(
    rt: &R,
    f: &CostFn,
    a: &[Option<u64>],
    g: &CostFn,
    b: &[Option<u64>],
) -> bool
    requires first { AreBuilt f.now }
    requires second { AreBuilt g.now }
{
    let merged = least(rt.alloc(), f, g).expect(rt, "memory");
    is_least(&merged.function, a, b)
        && has_better(&merged.improved, a, b)
        && is_improved(f, g) == is_any_better(a, b)
}

fn merges_in_place_as_lists<R: Abort + AllocGlobal>(
    rt: &R,
    f: &CostFn,
    a: &[Option<u64>],
    g: &CostFn,
    b: &[Option<u64>],
) -> bool
    requires first { AreBuilt f.now }
    requires second { AreBuilt g.now }
{
    let mut in_place = f.reduce(rt.alloc()).expect(rt, "memory");
    let mut spare = g.reduce(rt.alloc()).expect(rt, "memory").into_pieces();
    let spare_set = MinuteSet::whole(rt.alloc(), Run { lo: 3, hi: 9 }).expect(rt, "memory");
    let improved = improve_with_spare(rt.alloc(), &mut in_place, g, &mut spare, spare_set).expect(
        rt, "memory",
    );
    is_least(&in_place, a, b) && has_better(&improved, a, b)
}

// Whether the function has the values that are kept, later and at a cost, and is reduced.
fn is_shifted(f: &CostFn, a: &[Option<u64>], kept: &[bool], minutes: u64, cost: u64) -> bool {
    for t in 0..COMPARED {
        if f.at(t) != shifted(a, kept, minutes, cost, t) {
            return false;
        }
    }
    f.is_reduced()
}

fn shifts_as_lists<R: Abort + AllocGlobal>(
    rt: &R,
    random: &mut Random,
    f: &CostFn,
    a: &[Option<u64>],
    kept: &[bool],
    keep: &MinuteSet,
) -> bool
    requires { AreBuilt f.now }
{
    let minutes = random.below(12);
    let cost = random.below(30);
    if !can_shift(f, minutes, cost) {
        return false;
    }
    let spare = f.reduce(rt.alloc()).expect(rt, "memory");
    let moved = shift_with_spare(spare, f, keep, minutes, cost).expect(rt, "memory");
    is_shifted(&moved, a, kept, minutes, cost)
}

fn cuts_as_lists<R: Abort + AllocGlobal>(
    rt: &R,
    f: &CostFn,
    a: &[Option<u64>],
    kept: &[bool],
    keep: &MinuteSet,
) -> bool
    requires { AreBuilt f.now }
{
    let spare = f.reduce(rt.alloc()).expect(rt, "memory");
    let part = cut_with_spare(spare, f, keep).expect(rt, "memory");
    is_shifted(&part, a, kept, 0, 0)
}

fn moves_as_lists<R: Abort + AllocGlobal>(
    rt: &R,
    random: &mut Random,
    f: &CostFn,
    a: &[Option<u64>],
) -> bool
    requires { AreBuilt f.now }
{
    let kept = random_keep(random);
    let keep = set_of(rt.alloc(), &kept).expect(rt, "memory");
    shifts_as_lists(rt, random, f, a, &kept, &keep) && cuts_as_lists(rt, f, a, &kept, &keep)
}

// Whether the function has the least values after waits at these minutes, and is reduced.
fn is_waited(f: &CostFn, a: &[Option<u64>], weight: u64, allowed: &[bool], until: u64) -> bool {
    for t in 0..COMPARED {
        if f.at(t) != waited(a, weight, allowed, until, t) {
            return false;
        }
    }
    f.is_reduced()
}

fn waits_as_lists<R: Abort + AllocGlobal>(
    rt: &R,
    random: &mut Random,
    f: &CostFn,
    a: &[Option<u64>],
) -> bool
    requires { AreBuilt f.now }
{
    let weight = random.below(6);
    let until = random.below(COMPARED);
    if !can_wait(f, weight, until) {
        return false;
    }
    let kept = random_keep(random);
    let allowed = set_of(rt.alloc(), &kept).expect(rt, "memory");
    let spare = f.reduce(rt.alloc()).expect(rt, "memory");
    let made = wait_with_spare(spare, f, weight, &allowed, until).expect(rt, "memory");
    is_waited(&made, a, weight, &kept, until)
}

fn random_bound(random: &mut Random) -> Bound {
    Bound {
        minutes: random.below(6),
        cost: random.below(30),
    }
}

// Whether the function has the values that are kept, and is reduced.
fn is_pruned(f: &CostFn, a: &[Option<u64>], until: u64, pairs: &[Pair], bound: Bound) -> bool {
    for t in 0..COMPARED {
        if f.at(t) != pruned(a, until, pairs, bound, t) {
            return false;
        }
    }
    f.is_reduced()
}

fn prunes_as_lists<R: Abort + AllocGlobal>(
    rt: &R,
    random: &mut Random,
    f: &CostFn,
    a: &[Option<u64>],
) -> bool
    requires { AreBuilt f.now }
{
    let pairs = random_pairs(rt.alloc(), random).expect(rt, "memory");
    let until = random.below(COMPARED);
    let bound = random_bound(random);
    let made = prune(rt.alloc(), f, until, &pairs, bound).expect(rt, "memory");
    let spare = f.reduce(rt.alloc()).expect(rt, "memory");
    let in_place = into_pruned(spare, until, &pairs, bound);
    is_pruned(&made, a, until, &pairs, bound) && is_pruned(&in_place, a, until, &pairs, bound)
}

// Whether two functions have the same values.
fn are_alike(f: &CostFn, g: &CostFn) -> bool {
    for t in 0..COMPARED {
        if f.at(t) != g.at(t) {
            return false;
        }
    }
    true
}

// Whether shifting and pruning at once gives the values that pruning after shifting gives.
fn shifts_and_prunes_alike<R: Abort + AllocGlobal>(rt: &R, random: &mut Random, f: &CostFn) -> bool
    requires { AreBuilt f.now }
{
    let minutes = random.below(12);
    let cost = random.below(30);
    if !can_shift(f, minutes, cost) {
        return false;
    }
    let until = random.below(COMPARED);
    let bound = random_bound(random);
    let kept = random_keep(random);
    let keep = set_of(rt.alloc(), &kept).expect(rt, "memory");
    let pairs = random_pairs(rt.alloc(), random).expect(rt, "memory");
    let spare = f.reduce(rt.alloc()).expect(rt, "memory");
    let at_once = shift_and_prune(spare, f, &keep, minutes, cost, until, &pairs, bound).expect(
        rt, "memory",
    );
    let moved = shift(rt.alloc(), f, &keep, minutes, cost).expect(rt, "memory");
    let after = prune(rt.alloc(), &moved, until, &pairs, bound).expect(rt, "memory");
    are_alike(&at_once, &after) && at_once.is_reduced()
}

// Whether the calls on one function are right.
fn changes_as_lists<R: Abort + AllocGlobal>(
    rt: &R,
    random: &mut Random,
    f: &CostFn,
    a: &[Option<u64>],
) -> bool
    requires { AreBuilt f.now }
{
    has_values(f, a)
        && moves_as_lists(rt, random, f, a)
        && waits_as_lists(rt, random, f, a)
        && prunes_as_lists(rt, random, f, a)
        && shifts_and_prunes_alike(rt, random, f)
}

// Whether the calls on random functions are right.
fn is_right<R: Abort + AllocGlobal>(rt: &R, random: &mut Random) -> bool {
    let a = random_values(random);
    let b = random_values(random);
    let f = function_of(rt.alloc(), &a).expect(rt, "memory");
    let g = function_of(rt.alloc(), &b).expect(rt, "memory");
    changes_as_lists(rt, random, &f, &a)
        && merges_as_lists(rt, &f, &a, &g, &b)
        && merges_in_place_as_lists(rt, &f, &a, &g, &b)
}

#[test]
fn agrees_with_lists_of_values(rt: HostRuntime) -> Result<(), Fail> {
    println!(rt; "{CASES} random cases from the seed {SEED}")?;
    let mut random = Random { state: SEED };
    for case in 0..CASES {
        let right = is_right(&rt, &mut random);
        assert!(rt; right, "case {case}");
    }
    Ok(())
}
