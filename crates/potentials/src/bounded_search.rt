// The trait of engines that prune by bounds.
ghost use Rattle.std.specs.Prelude.{◌≡◌, ◌≤◌, ◌-◌, length, IfOk};
ghost use Rattle.route_base.specs.Front.{IsRight};
ghost use Rattle.route_base.specs.Legs.{CostsFit};
ghost use Rattle.route_base.specs.Net.{IsGoodRequest, setting_of};
ghost use Rattle.route_base.specs.Relaxing.{AreBounds};
ghost use Rattle.route_base.specs.declared.limits.TheConstants.{LONGEST_HORIZON};
ghost use Rattle.potentials.specs.Sums.{bound_at};

use route_base::{Bounds, FrontSearch, OutOfMemory, Request, Routes, TimedNet};
use std::alloc::Global;

/// An engine that finds Pareto fronts by bounds that it is given.
pub trait BoundedSearch {
    /// The Pareto front of the net and the request, as `FrontSearch` has it, for any bounds to the goal that hold along each arc. The
    /// larger they are, the less is searched.
    fn front_with(
        &self,
        alloc: Global,
        net: &TimedNet,
        bounds: Bounds,
        request: Request,
    ) -> Result<Routes, OutOfMemory>
        requires good { IsGoodRequest net.now request }
        requires in_time { request.depart ≤ request.until }
        requires horizon { request.until - request.depart ≤ LONGEST_HORIZON }
        requires fit { CostsFit (setting_of net.now) request }
        requires bounds { AreBounds (setting_of net.now) request.goal.0 (bound_at bounds) }
        requires bounded { length bounds ≡ net.now.nodes }
        ensures { IfOk result (λ routes. IsRight (setting_of net.now) request routes) };
}

/// An engine that finds its own bounds among those that take bounds: what it is given is dropped.
#[derive(Clone, Copy)]
pub struct WithoutBounds<'a, E> {
    pub engine: &'a E,
}

impl<E: FrontSearch> BoundedSearch for WithoutBounds<'_, E> {
    fn front_with(
        &self,
        alloc: Global,
        net: &TimedNet,
        _bounds: Bounds,
        request: Request,
    ) -> Result<Routes, OutOfMemory> {
        self.engine.front(alloc, net, request)
    }
}
