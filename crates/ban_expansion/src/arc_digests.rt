// Digests of what arcs have of their own, by which arcs that may be alike are found. Nothing rests on them: an exact comparison tells
// apart two arcs that differ and have one digest. So a fold of a few instructions does, for which such arcs are easily made: each of
// them costs one comparison, and may have a group of its own where it could share one, which is no more than if all arcs differed.
ghost use Rattle.ban_expansion.specs.Words.{IsArc};

use conditional_rules::{Access, Conditional, print};
use network_tables::Network;
use route_base::{ArcId, OutOfMemory};
use std::alloc::Global;
use std::hash::{DefaultHasher, Hash, Hasher};
use vehicle_classes::EVERY_KEY;

// An odd number, by which no two products of 64 bits become one.
const FACTOR: u64 = 0x9E37_79B9_7F4A_7C15;

// The digest once one more number is written. Two digests stay two with the same number, and so do two numbers with the same digest.
fn folded(digest: u64, number: u64) -> u64 {
    (digest.rotate_left(23) ^ number).wrapping_mul(FACTOR)
}

// The digest once the arc's closures are written.
fn with_closures(digest: u64, network: &Network, a: ArcId) -> u64
    requires { IsArc network.now a }
{
    let mut written = digest;
    for k in 0..network.closure_count(a) {
        let run = network.closure(a, k);
        written = folded(folded(written, run.lo), run.hi);
    }
    written
}

// The number of a plain value, or of none.
fn number_of(access: Option<Access>) -> u64 {
    match access {
        None => 0,
        Some(Access::Free) => 1,
        Some(Access::Barred) => 2,
        Some(Access::Purpose) => 3,
    }
}

// The digest once the canonical text of a conditional value, if there is one, is written.
fn with_conditional(
    alloc: Global,
    digest: u64,
    conditional: Option<&Conditional>,
) -> Result<u64, OutOfMemory> {
    let Some(conditional) = conditional else {
        return Ok(digest);
    };
    let mut hasher = DefaultHasher::new();
    print(alloc, conditional)?.hash(&mut hasher);
    Ok(folded(digest, hasher.finish()))
}

// The digest once the arc's rules of its own are written.
fn with_rules(alloc: Global, digest: u64, network: &Network, a: ArcId) -> Result<u64, OutOfMemory> {
    let mut written = digest;
    for key in EVERY_KEY.iter() {
        written = folded(written, number_of(network.arc_plain(a, *key)));
        written = with_conditional(alloc, written, network.arc_conditional(a, *key))?;
    }
    Ok(written)
}

/// A digest of the arc's area, its closures, and its rules of its own. Linear in the closures; and where some arc has rules of its
/// own, in the bytes of the canonical texts of this one's conditional values.
pub fn arc_digest(alloc: Global, network: &Network, a: ArcId) -> Result<u64, OutOfMemory>
    requires { IsArc network.now a }
{
    let area = folded(FACTOR, network.area_of(a) as u64);
    let plain = with_closures(area, network, a);
    if network.has_arc_rules() {
        with_rules(alloc, plain, network, a)
    } else {
        Ok(plain)
    }
}
