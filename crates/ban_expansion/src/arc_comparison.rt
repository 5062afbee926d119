// Whether two arcs have the same area, the same closures, and the same rules of their own.
ghost use Rattle.std.specs.Prelude.{◌≡◌, All, IfOk, IsTrue, option_map};
ghost use Rattle.vehicle_classes.specs.Keys.{every_key};
ghost use Rattle.ban_expansion.specs.Words.{AreAlike, HaveSameRules, IsArc, closures_of};

use conditional_rules::{Conditional, print};
use network_tables::Network;
use route_base::{ArcId, OutOfMemory};
use std::alloc::Global;
use vehicle_classes::{EVERY_KEY, Key};

// Whether the arcs have the same closures in the same order.
fn have_same_closures(network: &Network, a: ArcId, b: ArcId) -> bool
    requires first { IsArc network.now a }
    requires second { IsArc network.now b }
    ensures { IsTrue result → closures_of network.now a.0 ≡ closures_of network.now b.0 }
{
    let count = network.closure_count(a);
    if network.closure_count(b) != count {
        return false;
    }
    for k in 0..count {
        let (first, second) = (network.closure(a, k), network.closure(b, k));
        if first.lo != second.lo || first.hi != second.hi {
            return false;
        }
    }
    true
}

// Whether two values have the same canonical text, and so the same clauses.
fn have_same_text(
    alloc: Global,
    first: &Conditional,
    second: &Conditional,
) -> Result<bool, OutOfMemory>
    ensures { IfOk result (λ same. IsTrue same → first.now ≡ second.now) }
{
    let text = print(alloc, first)?;
    let other = print(alloc, second)?;
    Ok(text.as_slice() == other.as_slice())
}

// Whether both values are missing, or have the same canonical text.
fn have_same_clauses(
    alloc: Global,
    first: Option<&Conditional>,
    second: Option<&Conditional>,
) -> Result<bool, OutOfMemory>
    ensures { IfOk result (λ same. IsTrue same →
        option_map (λ c. c.now) first.entry ≡ option_map (λ c. c.now) second.entry) }
{
    match (first, second) {
        (None, None) => Ok(true),
        (Some(first), Some(second)) => have_same_text(alloc, first, second),
        _ => Ok(false),
    }
}

// Whether the arcs have the same rules of their own for the key.
fn have_same_rules_for(
    alloc: Global,
    network: &Network,
    a: ArcId,
    b: ArcId,
    key: Key,
) -> Result<bool, OutOfMemory>
    ensures { IfOk result (λ same. IsTrue same → HaveSameRules network.now a.0 b.0 key) }
{
    if network.arc_plain(a, key) != network.arc_plain(b, key) {
        return Ok(false);
    }
    let first = network.arc_conditional(a, key);
    let second = network.arc_conditional(b, key);
    have_same_clauses(alloc, first, second)
}

// Whether the arcs have the same rules of their own for every key, as they do where no arc has any.
fn have_same_rules(
    alloc: Global,
    network: &Network,
    a: ArcId,
    b: ArcId,
) -> Result<bool, OutOfMemory>
    ensures { IfOk result (λ same. IsTrue same →
        All (HaveSameRules network.now a.0 b.0) every_key) }
{
    if !network.has_arc_rules() {
        return Ok(true);
    }
    for key in EVERY_KEY.iter() {
        if !have_same_rules_for(alloc, network, a, b, *key)? {
            return Ok(false);
        }
    }
    Ok(true)
}

/// Whether two arcs are in one area and have the same closures, and the same rules of their own. Linear in the closures; and where
/// some arc has rules of its own, in the bytes of the canonical texts of these arcs' conditional values, in time; in memory, in those
/// of two values.
pub fn are_alike(alloc: Global, network: &Network, a: ArcId, b: ArcId) -> Result<bool, OutOfMemory>
    requires first { IsArc network.now a }
    requires second { IsArc network.now b }
    ensures { IfOk result (λ alike. IsTrue alike → AreAlike network.now a.0 b.0) }
{
    if network.area_of(a) != network.area_of(b) || !have_same_closures(network, a, b) {
        return Ok(false);
    }
    have_same_rules(alloc, network, a, b)
}
