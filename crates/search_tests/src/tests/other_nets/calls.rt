// The planners that search another net, over nets of plain lists.
ghost use Rattle.std.specs.Prelude.{◌<◌, All, IsTrue, length};
ghost use Rattle.drive_breaks.specs.Words.{HasCheapArcs, IsGoodRule};
ghost use Rattle.stop_tour.specs.Tours.{IsGoodStop};

use crate::tests::engines::fronts::is_over;
use crate::tests::engines::nets::{NetLists, whole_net};
use drive_breaks::{BreakRule, plan_breaks};
use itinerary_unpack::FunctionEngine;
use latest_departure::{LateRoutes, latest};
use plain_search::TableEngine;
use rested_tours::{plan_rested, plan_rested_tour, plan_tour};
use route_base::limits::{DAY_MINUTES, LONGEST_HORIZON};
use route_base::{Request, Routes, TimedNet};
use std::alloc::Global;
use stop_tour::{Stop, TourRoutes, tour, tour_with};

// Whether the net has room for one node and one arc more.
fn has_room(net: &TimedNet) -> bool
    ensures nodes { IsTrue result → net.now.nodes < 1000 }
    ensures arcs { IsTrue result → length net.now.arcs < 1000 }
{
    net.node_count() < 1000 && net.arc_count() < 1000
}

/// What `latest` answers; `None` if the lists aren't those of a small well-formed net, the request isn't one over it, or memory doesn't
/// suffice.
pub fn latest_over(alloc: Global, lists: NetLists<'_>, request: Request) -> Option<LateRoutes> {
    match whole_net(alloc, lists) {
        Some(net) => latest_in(alloc, &net, request),
        None => None,
    }
}

fn latest_in(alloc: Global, net: &TimedNet, request: Request) -> Option<LateRoutes>
    requires { HasCheapArcs net.now }
{
    if !has_room(net) || !is_over(net, request) {
        return None;
    }
    if request.until - request.depart == LONGEST_HORIZON {
        return None;
    }
    latest(alloc, &TableEngine, net, request).ok()
}

// Whether the stop is at a node of the net, with a service and a window.
fn is_good_stop(net: &TimedNet, stop: Stop) -> bool
    ensures { IsTrue result → IsGoodStop net.now stop }
{
    let node = 1 <= stop.node.0 && stop.node.0 <= net.node_count();
    let service = 1 <= stop.service && stop.service <= DAY_MINUTES;
    node && service && stop.from < stop.to
}

// Whether all stops are good ones.
fn are_good_stops(net: &TimedNet, stops: &[Stop]) -> bool
    ensures { IsTrue result → All (IsGoodStop net.now) stops.now }
{
    stops.iter().all(|stop| is_good_stop(net, *stop))
}

/// What `tour` answers, or `tour_with` by the engine that takes bounds; `None` if the lists aren't those of a small well-formed net, the
/// request or a stop isn't one over it, or memory doesn't suffice.
pub fn tour_over(
    alloc: Global,
    lists: NetLists<'_>,
    request: Request,
    stops: &[Stop],
    bounded: bool,
) -> Option<TourRoutes> {
    match whole_net(alloc, lists) {
        Some(net) => tour_in(alloc, &net, request, stops, bounded),
        None => None,
    }
}

fn tour_in(
    alloc: Global,
    net: &TimedNet,
    request: Request,
    stops: &[Stop],
    bounded: bool,
) -> Option<TourRoutes>
    requires { HasCheapArcs net.now }
{
    if !is_over(net, request) || !are_good_stops(net, stops) {
        return None;
    }
    if bounded {
        tour_with(alloc, &FunctionEngine, net, request, stops).ok()
    } else {
        tour(alloc, &TableEngine, net, request, stops).ok()
    }
}

// Whether the numbers of the rule are in range.
fn is_good_rule(rule: BreakRule) -> bool
    ensures { IsTrue result → IsGoodRule rule }
{
    rule.drive <= DAY_MINUTES && 1 <= rule.rest && rule.rest <= DAY_MINUTES
}

/// What `plan_breaks` answers, or `plan_rested` by the search over states; `None` if the lists aren't those of a small well-formed net, the
/// request isn't one over it, a number of the rule is out of range, or memory doesn't suffice.
pub fn breaks_over(
    alloc: Global,
    lists: NetLists<'_>,
    request: Request,
    rule: BreakRule,
    by_states: bool,
) -> Option<Routes> {
    match whole_net(alloc, lists) {
        Some(net) => breaks_in(alloc, &net, request, rule, by_states),
        None => None,
    }
}

fn breaks_in(
    alloc: Global,
    net: &TimedNet,
    request: Request,
    rule: BreakRule,
    by_states: bool,
) -> Option<Routes>
    requires { HasCheapArcs net.now }
{
    if !is_over(net, request) || !is_good_rule(rule) {
        return None;
    }
    if by_states {
        plan_rested(alloc, net, request, rule).ok()
    } else {
        plan_breaks(alloc, &TableEngine, net, request, rule).ok()
    }
}

/// What `plan_tour` answers, or `plan_rested_tour` if there is a rule; `None` if the lists aren't those of a small well-formed net, the
/// request or a stop isn't one over it, a number of the rule is out of range, or memory doesn't suffice.
pub fn state_tour_over(
    alloc: Global,
    lists: NetLists<'_>,
    request: Request,
    stops: &[Stop],
    rule: Option<BreakRule>,
) -> Option<TourRoutes> {
    match whole_net(alloc, lists) {
        Some(net) => state_tour_in(alloc, &net, request, stops, rule),
        None => None,
    }
}

fn state_tour_in(
    alloc: Global,
    net: &TimedNet,
    request: Request,
    stops: &[Stop],
    rule: Option<BreakRule>,
) -> Option<TourRoutes>
    requires { HasCheapArcs net.now }
{
    if !is_over(net, request) || !are_good_stops(net, stops) || stops.len() > 3 {
        return None;
    }
    match rule {
        None => plan_tour(alloc, net, request, stops).ok(),
        Some(rule) if is_good_rule(rule) => {
            plan_rested_tour(alloc, net, request, stops, rule).ok()
        }
        Some(_) => None,
    }
}
