// Finds the clause of a conditional value that decides.
ghost use Rattle.std.specs.Prelude.{◌≡◌, ◌<◌, ◌≤◌, option_map, slice_get};
ghost use Rattle.conditional_rules.specs.Decisions.{compares, size_holds, part_holds, clause_holds, decision, deciding_place};

use crate::access::Access;
use crate::conditional::{Clause, Comparison, Conditional, Part};
use opening_hours::{Holidays, covers};
use vehicle_classes::Vehicle;

// Whether a size compares so with a value.
fn size_compares(comparison: Comparison, size: u64, value: u64) -> bool
    ensures { result ≡ compares comparison size value }
{
    match comparison {
        Comparison::Below => size < value,
        Comparison::AtMost => size <= value,
        Comparison::Above => size > value,
        Comparison::AtLeast => size >= value,
        Comparison::Equal => size == value,
    }
}

/// Whether a comparison holds; with a size that isn't known it doesn't. In constant time.
pub fn comparison_holds(comparison: Comparison, size: Option<u64>, value: u64) -> bool
    ensures { result ≡ size_holds comparison size value }
{
    match size {
        None => false,
        Some(size) => size_compares(comparison, size, value),
    }
}

// Whether a part holds for the vehicle at this minute of this day.
fn holds(part: &Part, vehicle: &Vehicle, day: u32, minute: u32, holidays: &Holidays) -> bool
    requires from { 7 ≤ day }
    requires to { day ≤ 84370 }
    requires minute { minute < 1440 }
    ensures { result ≡ part_holds vehicle.now holidays.now day minute part.now }
{
    match part {
        Part::Compare(quantity, comparison, value) => {
            comparison_holds(*comparison, vehicle.size(*quantity), *value)
        }
        Part::Flag(word) => vehicle.has_flag(word.as_slice()),
        Part::Times(hours) => covers(hours, day, minute, holidays),
    }
}

// Whether each part of a clause holds.
fn each_holds(
    clause: &Clause,
    vehicle: &Vehicle,
    day: u32,
    minute: u32,
    holidays: &Holidays,
) -> bool
    requires from { 7 ≤ day }
    requires to { day ≤ 84370 }
    requires minute { minute < 1440 }
    ensures { result ≡ clause_holds vehicle.now holidays.now day minute clause.now }
{
    clause
        .parts
        .as_slice()
        .iter()
        .all(|part| holds(part, vehicle, day, minute, holidays))
}

/// The place, from 0, of the last clause whose condition holds, for a vehicle at a minute of local time: a day number (days since
/// 1970-01-01) and the minute of that day; `None` exactly where no condition holds. It tries the clauses from the last one on and
/// stops at the first that holds, in time linear in their parts, their words, the rules of their hours and the vehicle's flags,
/// and takes no memory.
#[tactic(auto, using(crate::proofs::LastPlace::last_place_push))]
pub fn deciding(
    conditional: &Conditional,
    vehicle: &Vehicle,
    day: u32,
    minute: u32,
    holidays: &Holidays,
) -> Option<usize>
    requires from { 7 ≤ day }
    requires to { day ≤ 84370 }
    requires minute { minute < 1440 }
    ensures { result ≡ deciding_place vehicle.now holidays.now day minute conditional.now }
{
    let mut rest = conditional.clauses();
    while let Some((clause, before)) = rest.split_last() {
        if each_holds(clause, vehicle, day, minute, holidays) {
            return Some(before.len());
        }
        rest = before;
    }
    None
}

// The access of the clause at a place, if there is one.
fn access_of_clause(conditional: &Conditional, place: usize) -> Option<Access>
    ensures { result ≡ option_map (λ c. c.access) (slice_get conditional.now place) }
{
    conditional.get(place).map(|clause| clause.access)
}

/// The access of the last clause whose condition holds, for a vehicle at a minute of local time: a day number (days since
/// 1970-01-01) and the minute of that day; `None` exactly where no condition holds. As fast as `deciding`, and without memory.
pub fn decide(
    conditional: &Conditional,
    vehicle: &Vehicle,
    day: u32,
    minute: u32,
    holidays: &Holidays,
) -> Option<Access>
    requires from { 7 ≤ day }
    requires to { day ≤ 84370 }
    requires minute { minute < 1440 }
    ensures { result ≡ decision vehicle.now holidays.now day minute conditional.now }
{
    let place = deciding(conditional, vehicle, day, minute, holidays)?;
    access_of_clause(conditional, place)
}
