// The trait of all engines.
ghost use Rattle.std.specs.Prelude.{◌≤◌, ◌-◌, IfOk};
ghost use Rattle.route_base.specs.Net.{IsGoodRequest, setting_of};
ghost use Rattle.route_base.specs.Front.{IsRight};
ghost use Rattle.route_base.specs.Legs.{CostsFit};
ghost use Rattle.route_base.specs.declared.limits.TheConstants.{LONGEST_HORIZON};

use crate::{OutOfMemory, Request, Routes, TimedNet};
use std::alloc::Global;

/// An engine that finds Pareto fronts of arrival and cost.
pub trait FrontSearch {
    /// The Pareto front of the net and the request, by rising arrival, each pair with the legs of its first lawful itinerary.
    fn front(&self, alloc: Global, net: &TimedNet, request: Request) -> Result<Routes, OutOfMemory>
        requires good { IsGoodRequest net.now request }
        requires in_time { request.depart ≤ request.until }
        requires horizon { request.until - request.depart ≤ LONGEST_HORIZON }
        requires fit { CostsFit (setting_of net.now) request }
        ensures { IfOk result (λ routes. IsRight (setting_of net.now) request routes) };
}
