// Tours that keep a break rule.
ghost use Rattle.std.specs.Prelude.{◌≡◌, ◌≤◌, ◌<◌, ◌-◌, ◌^◌, All, IfOk, length, map};
ghost use Rattle.rested_tours.specs.Words.{IsGoodRequest, setting_of, HasCheapArcs, IsGoodRule, IsGoodStop};
ghost use Rattle.rested_tours.specs.Words.{AreRightRestedTours, stop_service};
ghost use Rattle.ruled_states.specs.Inside.Services.{service_at};
ghost use Rattle.route_base.specs.declared.limits.TheConstants.{LONGEST_HORIZON};

use crate::planning::plan_ruled;
use crate::told_routes::told_routes;
use drive_breaks::BreakRule;
use route_base::{OutOfMemory, Request, TimedNet};
use ruled_states::{OneRule, Service, Serving};
use std::alloc::Global;
use stop_tour::{Stop, TourRoutes};

// The service of a stop.
fn service_of(stop: Stop) -> Service
    ensures { service_at result ≡ stop_service stop }
{
    Service {
        node: stop.node,
        minutes: stop.service,
        from: stop.from,
        to: stop.to,
    }
}

/// The services of the stops. Linear in them.
pub fn services_of(alloc: Global, stops: &[Stop]) -> Result<Vec<Service>, OutOfMemory>
    ensures { IfOk result (λ out. map service_at out.items ≡ map stop_service stops.now) }
{
    let mut out = Vec::with_capacity(alloc, stops.len())?;
    for stop in stops {
        out.push(service_of(*stop))?;
    }
    Ok(out)
}

/// The Pareto front of arrival and cost over all lawful tours of the stops in their order that keep the break rule, by rising arrival, each
/// pair with the legs of the first of its tours: compared from the end, fewer minutes driven since the last break come first, and then the
/// earlier step. A service counts as a drive of no minutes: it is no break, and a wait before it isn't joined with one after it. The only
/// error is out of memory.
///
/// It takes the time and memory of `plan_ruled` over the minutes driven since the last break and the number of stops that were served.
pub fn plan_rested_tour(
    alloc: Global,
    net: &TimedNet,
    request: Request,
    stops: &[Stop],
    rule: BreakRule,
) -> Result<TourRoutes, OutOfMemory>
    requires good { IsGoodRequest net.now request }
    requires in_time { request.depart ≤ request.until }
    requires horizon { request.until - request.depart ≤ LONGEST_HORIZON }
    requires stops { All (IsGoodStop net.now) stops.now }
    requires count { length stops.now < 2 ^ 32 }
    requires rule { IsGoodRule rule }
    requires cheap { HasCheapArcs net.now }
    ensures { IfOk result (AreRightRestedTours (setting_of net.now) request stops.now rule) }
{
    let _nodes = net.node_count();
    ruled_search::ruled_costs_fit();
    let services = services_of(alloc, stops)?;
    let rules = OneRule {
        drive: rule.drive,
        rest: rule.rest,
    };
    let ruler = Serving {
        rules: &rules,
        services: services.as_slice(),
    };
    let over = plan_ruled(alloc, net, request, &ruler)?;
    let tours = told_routes(alloc, rule.rest, over.as_slice())?;
    Ok(tours)
}
