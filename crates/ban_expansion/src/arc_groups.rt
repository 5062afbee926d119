// Groups of arcs that are closed at the same minutes.
ghost use Rattle.std.specs.Prelude.{◌≡◌, ◌<◌, ◌^◌, [], length, IfOk, OnOk};
ghost use Rattle.ban_expansion.specs.Words.{begun, group_joined};

use route_base::{ArcId, OutOfMemory};
use std::alloc::Global;
use std::marker::Model;

/// The arcs of a network in groups: the arcs of a group are closed at the same minutes, to every vehicle. Each group has a first
/// arc, which stands for all of them.
pub struct ArcGroups {
    groups: Vec<u32>,
    firsts: Vec<ArcId>,
}

impl Model for ArcGroups {
    ghost use Rattle.ban_expansion.specs.ArcGroups.{GroupsModel};

    ghost Value = { GroupsModel };

    ghost view = { λ g. record { groups = g.groups.items; firsts = g.firsts.items } };
}

// By hand, so that the drops of its parts are proved here alone.
impl Drop for ArcGroups {
    fn drop(self) {
        let Self { groups, firsts } = self;
    }
}

impl ArcGroups {
    // No arcs yet, with room for this number of arcs. Linear in it, in memory.
    pub(crate) fn new(alloc: Global, arcs: usize) -> Result<ArcGroups, OutOfMemory>
        ensures { IfOk result (λ all. all ≡ record { groups = []; firsts = [] }) }
    {
        let groups = Vec::with_capacity(alloc, arcs)?;
        let firsts = Vec::new(alloc);
        Ok(ArcGroups { groups, firsts })
    }

    /// The group of each arc, from 0, in the order of the arcs. At no cost.
    pub fn groups(&self) -> &[u32]
        ensures { result.now ≡ self.now.groups }
    {
        self.groups.as_slice()
    }

    /// The first arc of each group. At no cost.
    pub fn firsts(&self) -> &[ArcId]
        ensures { result.now ≡ self.now.firsts }
    {
        self.firsts.as_slice()
    }

    // Puts the next arc into a new group, which it begins.
    #[inline(always)]
    pub(crate) fn begin(&mut self, a: ArcId) -> Result<u32, OutOfMemory>
        requires { length self.old.firsts < 2 ^ 32 }
        ensures group { IfOk result (λ group. group ≡ length self.old.firsts) }
        ensures begun { OnOk result (self.new ≡ begun self.old a) }
    {
        let group = self.firsts.len() as u32;
        self.firsts.push(a)?;
        self.groups.push(group)?;
        Ok(group)
    }

    // Puts the next arc into this group.
    #[inline(always)]
    pub(crate) fn join(&mut self, group: u32) -> Result<(), OutOfMemory>
        ensures { OnOk result (self.new ≡ group_joined self.old group) }
    {
        self.groups.push(group)?;
        Ok(())
    }
}
