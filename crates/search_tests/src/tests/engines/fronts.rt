// The fronts that both engines find.
ghost use Rattle.std.specs.Prelude.{◌<◌, IsTrue, length};
ghost use Rattle.route_base.specs.Legs.{CostsFit};
ghost use Rattle.route_base.specs.Net.{IsGoodNet, setting_of};
ghost use Rattle.drive_breaks.specs.Words.{HasCheapArcs};
ghost use Rattle.itinerary_unpack.specs.Answered.{IsAnswered};
ghost use Rattle.search_tests.specs.SmallNets.{IsRequestOver};

use super::nets::{NetLists, whole_net};
use crate::have_same_pairs;
use itinerary_unpack::{FunctionEngine, unpack};
use plain_search::TableEngine;
use propagation::{Found, search};
use route_base::limits::{LAST_INSTANT, LONGEST_HORIZON};
use route_base::{Cost, FrontSearch, Leg, Minute, Pair, Request, Route, Routes, TimedNet};
use std::alloc::Global;

/// The routes that each engine found.
#[derive(Drop)]
pub struct Fronts {
    pub table: Routes,
    pub functions: Routes,
    // Whether `search` and `unpack`, called one by one, gave the routes of the second engine.
    pub unpacked: bool,
}

impl Fronts {
    /// Whether both engines found the same routes, and the calls of the second engine its routes.
    pub fn agree(&self) -> bool {
        let table = self.table.as_slice();
        let functions = self.functions.as_slice();
        self.unpacked && have_same_pairs(table, functions) && have_same_legs(table, functions)
    }

    /// Whether the pairs have these arrivals and costs.
    pub fn are(&self, pairs: &[(Minute, Cost)]) -> bool {
        let table = self.table.as_slice();
        if table.len() != pairs.len() {
            return false;
        }
        for k in 0..pairs.len() {
            let (arrival, cost) = pairs[k];
            if table[k].pair != (Pair { arrival, cost }) {
                return false;
            }
        }
        true
    }
}

// Whether two lists of routes have the same legs in the same order.
fn have_same_legs(first: &[Route], second: &[Route]) -> bool {
    if first.len() != second.len() {
        return false;
    }
    for k in 0..second.len() {
        if first[k].legs.as_slice() != second[k].legs.as_slice() {
            return false;
        }
    }
    true
}

/// The routes that both engines find; `None` if the lists aren't those of a small well-formed net, the request isn't one over it, or memory
/// doesn't suffice.
pub fn fronts_of(alloc: Global, lists: NetLists<'_>, request: Request) -> Option<Fronts> {
    match whole_net(alloc, lists) {
        Some(net) => fronts_in(alloc, &net, request),
        None => None,
    }
}

fn fronts_in(alloc: Global, net: &TimedNet, request: Request) -> Option<Fronts>
    requires { HasCheapArcs net.now }
{
    if is_over(net, request) {
        fronts_over(alloc, net, request)
    } else {
        None
    }
}

fn fronts_over(alloc: Global, net: &TimedNet, request: Request) -> Option<Fronts>
    requires over { IsRequestOver net.now request }
    requires fit { CostsFit (setting_of net.now) request }
{
    let table = TableEngine.front(alloc, net, request).ok()?;
    let functions = FunctionEngine.front(alloc, net, request).ok()?;
    let unpacked = unpacks(alloc, net, request, functions.as_slice());
    Some(Fronts {
        table,
        functions,
        unpacked,
    })
}

// Whether `search` finds the pairs of these routes, and `unpack` their legs.
fn unpacks(alloc: Global, net: &TimedNet, request: Request, routes: &[Route]) -> bool
    requires over { IsRequestOver net.now request }
    requires fit { CostsFit (setting_of net.now) request }
{
    match search(alloc, net, request) {
        Ok(found) => are_unpacked(alloc, net, request, &found, routes),
        Err(_) => false,
    }
}

// Whether the pairs that were found are those of these routes, and the way back has their legs.
fn are_unpacked(
    alloc: Global,
    net: &TimedNet,
    request: Request,
    found: &Found,
    routes: &[Route],
) -> bool
    requires { IsAnswered net.now request found.now }
{
    let pairs = found.pairs();
    if pairs.len() != routes.len() {
        return false;
    }
    for k in 0..routes.len() {
        let route = &routes[k];
        if pairs[k] != route.pair
            || !is_unpacked(alloc, net, request, found, k, route.legs.as_slice())
        {
            return false;
        }
    }
    true
}

// Whether the way back of a pair has these legs.
fn is_unpacked(
    alloc: Global,
    net: &TimedNet,
    request: Request,
    found: &Found,
    k: usize,
    legs: &[Leg],
) -> bool
    requires found { IsAnswered net.now request found.now }
    requires one { k < length found.now.pairs }
{
    match unpack(alloc, net, request, found, k) {
        Ok(way) => way.as_slice() == legs,
        Err(_) => false,
    }
}

/// Whether the request is one over the net, of at most 60 days.
pub fn is_over(net: &TimedNet, request: Request) -> bool
    ensures over { IsTrue result → IsRequestOver net.now request }
    ensures good { IsGoodNet net.now }
{
    let nodes = net.node_count();
    let origin = 1 <= request.origin.0 && request.origin.0 <= nodes;
    let goal = 1 <= request.goal.0 && request.goal.0 <= nodes;
    let in_time = request.depart <= request.until && request.until <= LAST_INSTANT;
    origin && goal && in_time && request.until - request.depart <= LONGEST_HORIZON
}
