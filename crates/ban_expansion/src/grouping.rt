// Finds the arcs of a network that are closed at the same minutes.
ghost use Rattle.std.specs.Prelude.{◌≡◌, ◌+◌, ◌≤◌, ◌<◌, ◌^◌, All, Some, [], length, slice_get, IfOk, IfSome, OnOk};
ghost use Rattle.ban_expansion.specs.Words.{AreGroups, AreGrouped, AreShared, begun_shared, has_own};
ghost use Rattle.ban_expansion.specs.Words.{IsArc, IsInGroup, IsNext, NetworkModel};

use crate::arc_comparison::are_alike;
use crate::arc_digests::arc_digest;
use crate::arc_groups::ArcGroups;
use indexmap::IndexMap;
use network_tables::Network;
use route_base::{ArcId, OutOfMemory};
use std::alloc::Global;
use std::marker::Model;

// Groups so far, and for each area the group of its arcs that have nothing of their own, if there is one yet. The groups of the other
// arcs are found by the digests of their first arcs.
struct Grouping {
    all: ArcGroups,
    shared: Vec<Option<u32>>,
    by_digest: IndexMap<u64, u32>,
}

impl Model for Grouping {
    ghost use Rattle.ban_expansion.specs.Inside.Grouping.{GroupingModel};

    ghost Value = { GroupingModel };

    ghost view = { λ g. record { all = g.all; shared = g.shared.items } };
}

// By hand, so that the drops of its parts are proved here alone.
impl Drop for Grouping {
    fn drop(self) {
        let Self {
            all,
            shared,
            by_digest,
        } = self;
    }
}

// Whether the arc has closures, or a rule of its own for any key.
#[inline(always)]
fn has_any(network: &Network, a: ArcId) -> bool
    requires low { 1 ≤ a.0 }
    requires high { a.0 ≤ length network.now.graph.arcs }
    ensures { result ≡ has_own network.now a.0 }
{
    network.closure_count(a) > 0 || network.has_own_rules(a)
}

// Whether no arc has rules of its own, and this one at most two closures: its set is made about as soon as an arc like it is found.
#[inline(always)]
fn has_short_set(network: &Network, a: ArcId) -> bool
    requires low { 1 ≤ a.0 }
    requires high { a.0 ≤ length network.now.graph.arcs }
{
    !network.has_arc_rules() && network.closure_count(a) <= 2
}

// No group for each of these areas.
fn none_shared(alloc: Global, areas: usize) -> Result<Vec<Option<u32>>, OutOfMemory>
    ensures { IfOk result (λ shared. (network : NetworkModel) →
        length network.areas ≡ areas → AreShared network [] shared.items) }
{
    let shared = vec![in alloc; None; areas]?;
    Ok(shared)
}

impl Grouping {
    // No arcs yet, over this number of areas, with room for this number of arcs. Linear in them, in memory, and in the areas in time.
    fn new(alloc: Global, areas: usize, arcs: usize) -> Result<Grouping, OutOfMemory>
        ensures { IfOk result (λ grouping. (network : NetworkModel) →
            length network.areas ≡ areas → AreGrouped network 0 grouping) }
    {
        let shared = none_shared(alloc, areas)?;
        let all = ArcGroups::new(alloc, arcs)?;
        let by_digest = IndexMap::new(alloc);
        Ok(Grouping {
            all,
            shared,
            by_digest,
        })
    }

    // The group that the area at this place shares, if there is one yet.
    #[inline(always)]
    fn shared_by(&self, place: usize) -> Option<u32>
        requires { place < length self.now.shared }
        ensures { slice_get self.now.shared place ≡ Some result }
    {
        self.shared[place]
    }

    // Puts the next arc into a new group, which the area then shares.
    fn begin_shared(&mut self, a: ArcId, area: usize) -> Result<(), OutOfMemory>
        requires area { area < length self.old.shared }
        requires few { length self.old.all.firsts < 2 ^ 32 }
        ensures { OnOk result (self.new ≡ begun_shared self.old a area) }
    {
        let group = self.all.begin(a)?;
        self.shared[area] = Some(group);
        Ok(())
    }

    // The group that this digest finds, with its first arc.
    fn candidate(&self, digest: u64) -> Option<(u32, ArcId)>
        ensures { IfSome result (λ found. slice_get self.now.all.firsts found.0 ≡ Some found.1) }
    {
        let group = *self.by_digest.get(&digest)?;
        let first = *self.all.firsts().get(group as usize)?;
        Some((group, first))
    }

    // The group that this digest finds, if its first arc is like this one.
    fn group_of_alike(
        &self,
        alloc: Global,
        network: &Network,
        a: ArcId,
        digest: u64,
    ) -> Result<Option<u32>, OutOfMemory>
        requires arc { IsArc network.now a }
        requires firsts { All (IsArc network.now) self.now.all.firsts }
        ensures { IfOk result (λ found. IfSome found (λ group.
            IsInGroup network.now self.now.all.firsts a.0 group)) }
    {
        if let Some((group, first)) = self.candidate(digest) {
            if are_alike(alloc, network, a, first)? {
                return Ok(Some(group));
            }
        }
        Ok(None)
    }

    // Lets the digest find this group, where it finds none yet.
    fn note(&mut self, digest: u64, group: u32) -> Result<(), OutOfMemory>
        ensures { self.new ≡ self.old }
    {
        if !self.by_digest.contains_key(&digest) {
            self.by_digest.insert(digest, group)?;
        }
        Ok(())
    }

    // Groups the arc at place k from 0, which has something of its own. It shares the group of an arc like it, or begins a group; an
    // arc with a short set begins one without a look for such an arc. It isn't inlined, so that the loop over other arcs is short.
    #[inline(never)]
    fn add_own(&mut self, alloc: Global, network: &Network, k: u32) -> Result<(), OutOfMemory>
        requires { IsNext network.now k self.old }
        ensures { OnOk result (AreGrouped network.now (k + 1) self.new) }
    {
        let a = ArcId(k + 1);
        if has_short_set(network, a) {
            self.all.begin(a)?;
            return Ok(());
        }
        let digest = arc_digest(alloc, network, a)?;
        if let Some(group) = self.group_of_alike(alloc, network, a, digest)? {
            self.all.join(group)?;
            return Ok(());
        }
        let begun = self.all.begin(a)?;
        self.note(digest, begun)?;
        Ok(())
    }

    // Groups the arc at place k from 0. An arc without closures or rules of its own shares the group of its area.
    #[inline(always)]
    fn add(&mut self, alloc: Global, network: &Network, k: u32) -> Result<(), OutOfMemory>
        requires { IsNext network.now k self.old }
        ensures { OnOk result (AreGrouped network.now (k + 1) self.new) }
    {
        let a = ArcId(k + 1);
        if has_any(network, a) {
            return self.add_own(alloc, network, k);
        }
        let area = network.area_of(a);
        if let Some(group) = self.shared_by(area) {
            self.all.join(group)?;
            return Ok(());
        }
        self.begin_shared(a, area)?;
        Ok(())
    }

    // The groups, at no cost.
    fn into_groups(self) -> ArcGroups
        ensures { result ≡ self.all }
    {
        let Grouping {
            all,
            shared: _,
            by_digest: _,
        } = self;
        all
    }
}

/// The arcs of the network in groups, so that one `closed_set` for each group serves all its arcs, for every vehicle and every
/// window. Arcs of one area that have the same closures and the same rules of their own, or none, share a group. They are found by
/// digests, so where arcs that differ have one digest there may be more groups than that; and where no arc has rules of its own, each
/// arc with one or two closures has a group of its own, whose set is made about as soon as an arc like it is found.
///
/// If some arc has rules of its own, it takes seven tests of flags for an arc, and look-ups for those that have some. It is linear on
/// average in areas, arcs, the closures of single arcs, and the bytes of the canonical texts of their conditional values, in time; in
/// memory in areas and arcs, and in two of these texts.
pub fn group_arcs(alloc: Global, network: &Network) -> Result<ArcGroups, OutOfMemory>
    ensures { IfOk result (AreGroups network.now) }
{
    let count = network.graph().arc_count();
    let mut grouping = Grouping::new(alloc, network.area_count(), count as usize)?;
    for k in 0..count {
        grouping.add(alloc, network, k)?;
    }
    Ok(grouping.into_groups())
}
