// Random nets: the planners against the slow search.
ghost use Rattle.std.specs.Prelude.{◌≤◌};

use super::calls::{breaks_over, latest_over, state_tour_over, tour_over};
use super::slow_search::{Terms, slow_front};
use crate::tests::engines::random_nets::{Case, Random, random_case};
use drive_breaks::BreakRule;
use latest_departure::LateRoute;
use route_base::{Cost, Minute, NodeId, Pair, Request, Route};
use std::alloc::Global;
use std::test::Fail;
use stop_tour::{Stop, TourLeg, TourRoute, TourRoutes};

const SEED: u64 = 20261129;

const NETS: u64 = 250;

// The least cost of a trip that leaves at a minute, if there is one; `None` if memory doesn't suffice.
fn least_cost(
    alloc: Global,
    terms: Terms<'_>,
    request: Request,
    depart: Minute,
) -> Option<Option<Cost>> {
    match slow_front(alloc, terms, Request { depart, ..request }) {
        Some(pairs) => Some(match pairs.last() {
            Some(pair) => Some(pair.cost),
            None => None,
        }),
        None => None,
    }
}

// The departures that no other is no worse than, by falling departure, with their costs; `None` if memory doesn't suffice.
fn slow_departures(
    alloc: Global,
    terms: Terms<'_>,
    request: Request,
) -> Option<Vec<(Minute, Cost)>> {
    let mut departures = Vec::new(alloc);
    let mut best = u64::MAX;
    let span = request.until.saturating_sub(request.depart);
    for early in 0..span.saturating_add(1) {
        let depart = request.until.saturating_sub(early);
        let least = least_cost(alloc, terms, request, depart)?;
        if !push_cheaper(&mut departures, &mut best, depart, least) {
            return None;
        }
    }
    Some(departures)
}

// Adds the departure if it is cheaper than the best one; no if memory doesn't suffice.
fn push_cheaper(
    departures: &mut Vec<(Minute, Cost)>,
    best: &mut Cost,
    depart: Minute,
    least: Option<Cost>,
) -> bool {
    match least {
        Some(cost) if cost < *best => {
            *best = cost;
            departures.push((depart, cost)).is_ok()
        }
        _ => true,
    }
}

fn are_departures(routes: &[LateRoute], wants: &[(Minute, Cost)]) -> bool {
    if routes.len() != wants.len() {
        return false;
    }
    for k in 0..wants.len() {
        if routes[k].departure != wants[k].0 || routes[k].cost != wants[k].1 {
            return false;
        }
    }
    true
}

// How many latest departures there are; `None` if they aren't those of the slow search.
fn late_of(alloc: Global, case: &Case) -> Option<usize> {
    let lists = case.lists();
    let terms = Terms {
        lists,
        stops: &[],
        rule: None,
    };
    let wants = slow_departures(alloc, terms, case.request)?;
    match latest_over(alloc, lists, case.request) {
        Some(routes) if are_departures(routes.as_slice(), &wants) => Some(wants.len()),
        _ => None,
    }
}

fn are_pairs(routes: &[Route], wants: &[Pair]) -> bool {
    if routes.len() != wants.len() {
        return false;
    }
    for k in 0..wants.len() {
        if routes[k].pair != wants[k] {
            return false;
        }
    }
    true
}

// Whether one of the calls finds these trips with breaks.
fn has_breaks(
    alloc: Global,
    case: &Case,
    rule: BreakRule,
    by_states: bool,
    wants: &[Pair],
) -> bool {
    match breaks_over(alloc, case.lists(), case.request, rule, by_states) {
        Some(routes) => are_pairs(routes.as_slice(), wants),
        None => false,
    }
}

// How many trips with breaks there are; `None` if they aren't those of the slow search.
fn rested_of(alloc: Global, case: &Case, rule: BreakRule) -> Option<usize> {
    let terms = Terms {
        lists: case.lists(),
        stops: &[],
        rule: Some(rule),
    };
    let wants = slow_front(alloc, terms, case.request)?;
    if has_breaks(alloc, case, rule, false, &wants) && has_breaks(alloc, case, rule, true, &wants) {
        Some(wants.len())
    } else {
        None
    }
}

// The number of stops that the legs serve, if they serve them in their order.
fn served_in_order(legs: &[TourLeg]) -> Option<usize> {
    let mut served = 0u32;
    for leg in legs {
        if let TourLeg::Serve(stop) = *leg {
            if stop != served.saturating_add(1) {
                return None;
            }
            served = stop;
        }
    }
    Some(served as usize)
}

// Whether the tours have these pairs, and each serves this number of stops in their order.
fn are_tours(tours: Option<TourRoutes>, stops: usize, wants: &[Pair]) -> bool {
    match tours {
        Some(routes) => are_served(routes.as_slice(), stops, wants),
        None => false,
    }
}

fn are_served(routes: &[TourRoute], stops: usize, wants: &[Pair]) -> bool {
    if routes.len() != wants.len() {
        return false;
    }
    for k in 0..wants.len() {
        let route = &routes[k];
        if route.pair != wants[k] || served_in_order(route.legs.as_slice()) != Some(stops) {
            return false;
        }
    }
    true
}

// Whether each of the calls without a rule finds these tours.
fn have_tours(alloc: Global, case: &Case, stops: &[Stop], wants: &[Pair]) -> bool {
    let lists = case.lists();
    let request = case.request;
    let count = stops.len();
    are_tours(tour_over(alloc, lists, request, stops, false), count, wants)
        && are_tours(tour_over(alloc, lists, request, stops, true), count, wants)
        && are_tours(
            state_tour_over(alloc, lists, request, stops, None),
            count,
            wants,
        )
}

// How many tours without a rule there are; `None` if they aren't those of the slow search.
fn tours_of(alloc: Global, case: &Case, stops: &[Stop]) -> Option<usize> {
    let terms = Terms {
        lists: case.lists(),
        stops,
        rule: None,
    };
    let wants = slow_front(alloc, terms, case.request)?;
    if have_tours(alloc, case, stops, &wants) {
        Some(wants.len())
    } else {
        None
    }
}

// How many tours under the rule there are; `None` if they aren't those of the slow search.
fn rested_tours_of(alloc: Global, case: &Case, stops: &[Stop], rule: BreakRule) -> Option<usize> {
    let lists = case.lists();
    let rule = Some(rule);
    let wants = slow_front(alloc, Terms { lists, stops, rule }, case.request)?;
    let tours = state_tour_over(alloc, lists, case.request, stops, rule);
    if are_tours(tours, stops.len(), &wants) {
        Some(wants.len())
    } else {
        None
    }
}

// This number of stops, up to three; all behind them are equal.
fn random_stops(random: &mut Random, nodes: u32, count: usize) -> [Stop; 3]
    requires { 1 ≤ nodes }
{
    let mut stops = [NO_STOP; 3];
    for k in 0..count.min(3) {
        let from = random.below(20);
        stops[k] = Stop {
            node: random.node(nodes),
            service: random.below(6) + 1,
            from,
            to: from + random.below(30) + 1,
        };
    }
    stops
}

const NO_STOP: Stop = Stop {
    node: NodeId(1),
    service: 1,
    from: 0,
    to: 1,
};

fn random_rule(random: &mut Random) -> BreakRule {
    BreakRule {
        drive: random.below(8) + 3,
        rest: random.below(4) + 1,
    }
}

// How many trips of each kind were found.
#[derive(Clone, Copy)]
struct Found {
    late: usize,
    rested: usize,
    tours: usize,
    rested_tours: usize,
}

impl Found {
    fn and(self, more: Found) -> Found {
        Found {
            late: self.late.saturating_add(more.late),
            rested: self.rested.saturating_add(more.rested),
            tours: self.tours.saturating_add(more.tours),
            rested_tours: self.rested_tours.saturating_add(more.rested_tours),
        }
    }

    fn are_many(&self) -> bool {
        self.late > 50 && self.rested > 50 && self.tours > 20 && self.rested_tours > 10
    }
}

// The trips that were found over one net; `None` if one is wrong.
fn trips_of(alloc: Global, random: &mut Random) -> Option<Found> {
    let case = random_case(random);
    let count = random.below(4) as usize;
    let stops = random_stops(random, case.nodes.max(1), count);
    let stops = &stops[..count];
    let rule = random_rule(random);
    Some(Found {
        late: late_of(alloc, &case)?,
        rested: rested_of(alloc, &case, rule)?,
        tours: tours_of(alloc, &case, stops)?,
        rested_tours: rested_tours_of(alloc, &case, stops, rule)?,
    })
}

#[test]
fn agree_with_a_slow_search(rt: HostRuntime) -> Result<(), Fail> {
    println!(rt; "{NETS} random nets from the seed {SEED}")?;
    let mut random = Random { state: SEED };
    let mut found = Found {
        late: 0,
        rested: 0,
        tours: 0,
        rested_tours: 0,
    };
    for net in 0..NETS {
        let trips = trips_of(rt.alloc(), &mut random);
        assert!(rt; trips.is_some(), "net {net}");
        found = found.and(trips.unwrap_or(found));
    }
    assert!(rt; found.are_many());
    Ok(())
}
