// Sweeps over two sets at once.
ghost use Rattle.std.specs.Prelude.{◌≡◌, ◌≢◌, ◌≤◌, ◌<◌, ◌^◌, ◌-◌, ◌+◌, ◌↔◌, IsTrue, ℕ, Bool, IfOk, OnOk, length, get_or, All};
ghost use Rattle.route_base.specs.Runs.{any_has, AreRuns};
ghost use Rattle.minute_sets.specs.Combination.{keeps, IsSwept};
ghost use Rattle.route_base.specs.declared.types.Run.{Run};

use crate::minute_set::MinuteSet;
use route_base::{Minute, OutOfMemory, Run};
use std::alloc::Global;

// The minutes of two sets that are kept.
#[derive(Clone, Copy)]
pub enum Combination {
    Either,
    Both,
    OnlyFirst,
}

/// Minutes on end that are all in some runs or all outside; `until` is the first minute behind them.
#[derive(Clone, Copy)]
pub struct Stretch {
    pub inside: bool,
    pub until: Minute,
}

fn is_kept(how: Combination, first: bool, second: bool) -> bool
    ensures { result ≡ keeps how first second }
{
    match how {
        Combination::Either => first || second,
        Combination::Both => first && second,
        Combination::OnlyFirst => first && !second,
    }
}

/// The longest stretch that begins with the minute, where the first run ends later than it. No memory.
pub fn stretch_at(runs: &[Run], from: Minute) -> Stretch
    requires runs { AreRuns runs.now }
    requires reach { (d : Run) → 0 < length runs.now → from < (get_or runs.now 0 d).hi }
    ensures same { (t : ℕ) → from ≤ t → t < result.until → any_has runs.now t ≡ result.inside }
    ensures change { 0 < length runs.now → any_has runs.now result.until ≢ result.inside }
    ensures later { from ≤ result.until }
    ensures some { 0 < length runs.now → from < result.until }
    ensures none { length runs.now ≡ 0 → result.until ≡ 2 ^ 64 - 1 }
    ensures within { (d : Run) → 0 < length runs.now → result.until ≤ (get_or runs.now 0 d).hi }
{
    match runs {
        [] => Stretch {
            inside: false,
            until: u64::MAX,
        },
        [run, ..] => {
            if run.lo <= from {
                Stretch {
                    inside: true,
                    until: run.hi,
                }
            } else {
                Stretch {
                    inside: false,
                    until: run.lo,
                }
            }
        }
    }
}

fn is_some_left(first: &[Run], second: &[Run]) -> bool
    ensures { IsTrue result ↔ (0 < length first.now + length second.now) }
{
    !first.is_empty() || !second.is_empty()
}

// The runs without the first where that ends at the minute, and else all of them.
fn runs_from(runs: &[Run], from: Minute) -> &[Run]
    requires runs { AreRuns runs.now }
    requires reach { (d : Run) → 0 < length runs.now → from ≤ (get_or runs.now 0 d).hi }
    ensures runs { AreRuns result.now }
    ensures reach { (d : Run) → 0 < length result.now → from < (get_or result.now 0 d).hi }
    ensures same { (t : ℕ) → from ≤ t → any_has result.now t ≡ any_has runs.now t }
{
    match runs {
        [] => runs,
        [run, rest @ ..] => { if run.hi <= from { rest } else { runs } }
    }
}

// Adds the minutes of the run where they are kept.
fn add_kept(set: &mut MinuteSet, run: Run, kept: bool) -> Result<(), OutOfMemory>
    requires runs { AreRuns set.old }
    requires later { All (λ r. r.lo ≤ run.lo) set.old }
    requires filled { run.lo < run.hi }
    ensures runs { AreRuns set.new }
    ensures swept { OnOk result ((wanted : ℕ → Bool) → IsSwept wanted set.old run.lo
        → ((t : ℕ) → run.lo ≤ t → t < run.hi → wanted t ≡ kept) → IsSwept wanted set.new run.hi) }
{
    if kept {
        set.append(run)?;
    }
    Ok(())
}

// The minutes that the combination keeps. Linear in the number of runs of both.
pub fn combined(
    alloc: Global,
    first: &[Run],
    second: &[Run],
    how: Combination,
) -> Result<MinuteSet, OutOfMemory>
    requires first { AreRuns first.now }
    requires second { AreRuns second.now }
    ensures minutes { IfOk result (λ set. (t : ℕ) →
        any_has set t ≡ keeps how (any_has first.now t) (any_has second.now t)) }
    ensures runs { IfOk result AreRuns }
{
    let mut set = MinuteSet::empty(alloc);
    let mut a = first;
    let mut b = second;
    let mut from: Minute = 0;
    'stretches: while is_some_left(a, b) {
        let in_a = stretch_at(a, from);
        let in_b = stretch_at(b, from);
        let until = in_a.until.min(in_b.until);
        let kept = is_kept(how, in_a.inside, in_b.inside);
        let run = Run {
            lo: from,
            hi: until,
        };
        add_kept(&mut set, run, kept)?;
        from = until;
        a = runs_from(a, from);
        b = runs_from(b, from);
    }
    Ok(set)
}
