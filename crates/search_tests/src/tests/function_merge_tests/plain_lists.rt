// The results of the calls, worked out minute by minute over lists of values.
use route_base::{Bound, Minute, Pair};

// Values are a list with a value, or none, for each minute from 0 on.

pub fn value(values: &[Option<u64>], t: Minute) -> Option<u64> {
    values.get(t as usize).copied().flatten()
}

pub fn lesser(a: Option<u64>, b: Option<u64>) -> Option<u64> {
    match (a, b) {
        (Some(x), Some(y)) => Some(x.min(y)),
        (None, b) => b,
        (a, None) => a,
    }
}

pub fn is_better(a: Option<u64>, b: Option<u64>) -> bool {
    match (a, b) {
        (_, None) => false,
        (None, Some(_)) => true,
        (Some(x), Some(y)) => y < x,
    }
}

pub fn shifted(
    values: &[Option<u64>],
    keep: &[bool],
    minutes: u64,
    cost: u64,
    t: Minute,
) -> Option<u64> {
    if t < minutes || keep.get((t - minutes) as usize) != Some(&true) {
        return None;
    }
    Some(value(values, t - minutes)?.saturating_add(cost))
}

pub fn waited(
    values: &[Option<u64>],
    weight: u64,
    allowed: &[bool],
    until: Minute,
    t: Minute,
) -> Option<u64> {
    if until < t {
        return None;
    }
    let mut least = None;
    for s in 0..t.saturating_add(1) {
        let wait = weight.saturating_mul(t - s);
        least = lesser(least, value(values, s).map(|v| v.saturating_add(wait)));
        if allowed.get(s as usize) != Some(&true) && s < t {
            least = None;
        }
    }
    least
}

pub fn pruned(
    values: &[Option<u64>],
    until: Minute,
    pairs: &[Pair],
    bound: Bound,
    t: Minute,
) -> Option<u64> {
    let cost = value(values, t)?;
    let arrival = t.saturating_add(bound.minutes);
    let total = cost.saturating_add(bound.cost);
    if until < arrival
        || pairs
            .iter()
            .any(|p| p.arrival <= arrival && p.cost <= total)
    {
        return None;
    }
    Some(cost)
}
