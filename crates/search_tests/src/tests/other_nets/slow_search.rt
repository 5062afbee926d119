// A slow search straight from the rules: whatever steps reach, minute by minute.
use crate::tests::engines::nets::NetLists;
use drive_breaks::BreakRule;
use route_base::{Cost, Minute, NodeId, Pair, Park, Request, Run, TimedArc};
use std::alloc::Global;
use stop_tour::Stop;

/// A net, the stops that are served on the way, and the rule that is kept, if there is one.
#[derive(Clone, Copy)]
pub struct Terms<'a> {
    pub lists: NetLists<'a>,
    pub stops: &'a [Stop],
    pub rule: Option<BreakRule>,
}

impl Terms<'_> {
    // The minutes since the last break with a drive of these minutes; `None` if that is against the rule.
    fn driven(self, before: u64, minutes: u64) -> Option<u64> {
        let Some(rule) = self.rule else {
            return Some(0);
        };
        let driven = before.saturating_add(minutes);
        if driven <= rule.drive {
            Some(driven)
        } else {
            None
        }
    }

    // The neighbouring waits, up to a break, and the minutes since the last break, with one wait more.
    fn waited(self, waits: u64, driven: u64) -> (u64, u64) {
        let Some(rule) = self.rule else {
            return (0, 0);
        };
        if waits.saturating_add(1) < rule.rest {
            (waits.saturating_add(1), driven)
        } else {
            (rule.rest, 0)
        }
    }
}

// Where a trip can be, with the stops that were served, the minutes driven since the last break, and the waits that came last.
#[derive(Clone, Copy)]
struct Point {
    node: NodeId,
    minute: Minute,
    served: usize,
    driven: u64,
    waits: u64,
    cost: Cost,
}

impl Point {
    // Whether this is the same but for the cost, and no dearer.
    fn covers(self, other: Point) -> bool {
        let place = self.node == other.node && self.minute == other.minute;
        let done = self.served == other.served && self.driven == other.driven;
        place && done && self.waits == other.waits && self.cost <= other.cost
    }
}

// Whether none of the minutes from `from` on up to `to` is in a run of the list.
fn is_clear(closed: &[(u32, Run)], list: u32, from: Minute, to: Minute) -> bool {
    !closed.iter().any(|(place, run)| *place == list && run.lo < to && from < run.hi)
}

// The points that were found, without those that another one covers; not whole once memory ran out.
#[derive(Drop)]
struct Points {
    held: Vec<Point>,
    until: Minute,
    is_whole: bool,
}

impl Points {
    fn add(&mut self, point: Point) {
        if point.minute <= self.until && !self.held.iter().any(|old| old.covers(point)) {
            self.is_whole = self.held.push(point).is_ok() && self.is_whole;
        }
    }

    fn drive(&mut self, terms: Terms<'_>, from: Point, arc: TimedArc) {
        let minute = from.minute.saturating_add(arc.minutes);
        let open = is_clear(terms.lists.closed, arc.closed, from.minute, minute);
        if arc.tail == from.node && open {
            if let Some(driven) = terms.driven(from.driven, arc.minutes) {
                self.add(Point {
                    node: arc.head,
                    minute,
                    driven,
                    waits: 0,
                    cost: from.cost.saturating_add(arc.cost),
                    ..from
                });
            }
        }
    }

    fn wait(&mut self, terms: Terms<'_>, from: Point, park: Park) {
        let minute = from.minute.saturating_add(1);
        if is_clear(terms.lists.closed, park.shut, from.minute, minute) {
            let (waits, driven) = terms.waited(from.waits, from.driven);
            self.add(Point {
                minute,
                waits,
                driven,
                cost: from.cost.saturating_add(park.weight),
                ..from
            });
        }
    }

    fn serve(&mut self, from: Point, stop: Stop) {
        let minute = from.minute.saturating_add(stop.service);
        if stop.node == from.node && stop.from <= from.minute && minute <= stop.to {
            self.add(Point {
                minute,
                served: from.served.saturating_add(1),
                waits: 0,
                ..from
            });
        }
    }

    fn go_on(&mut self, terms: Terms<'_>, from: Point) {
        for arc in terms.lists.arcs {
            self.drive(terms, from, *arc);
        }
        if let Some(Some(park)) = terms
            .lists
            .parks
            .get((from.node.0 as usize).saturating_sub(1))
        {
            self.wait(terms, from, *park);
        }
        if let Some(stop) = terms.stops.get(from.served) {
            self.serve(from, *stop);
        }
    }

    // Goes on from all points of a minute.
    fn leave(&mut self, terms: Terms<'_>, minute: Minute) {
        for k in 0..self.held.len() {
            if let Some(from) = self.held.get(k).copied() {
                if from.minute == minute {
                    self.go_on(terms, from);
                }
            }
        }
    }

    // The least cost at the goal at a minute, with this number of stops served.
    fn least(&self, goal: NodeId, minute: Minute, served: usize) -> Option<Cost> {
        let mut least = None;
        for point in self.held.as_slice() {
            if point.node == goal && point.minute == minute && point.served == served {
                least = Some(match least {
                    Some(cost) => point.cost.min(cost),
                    None => point.cost,
                });
            }
        }
        least
    }
}

/// The pairs that no other pair of the same trips is no worse than, by rising arrival; `None` if memory doesn't suffice.
pub fn slow_front(alloc: Global, terms: Terms<'_>, request: Request) -> Option<Vec<Pair>> {
    let mut points = Points {
        held: Vec::new(alloc),
        until: request.until,
        is_whole: true,
    };
    points.add(Point {
        node: request.origin,
        minute: request.depart,
        served: 0,
        driven: 0,
        waits: 0,
        cost: 0,
    });
    front_of(alloc, &mut points, terms, request)
}

// Goes on from the points minute by minute; the pairs at the goal.
fn front_of(
    alloc: Global,
    points: &mut Points,
    terms: Terms<'_>,
    request: Request,
) -> Option<Vec<Pair>> {
    let mut pairs = Vec::new(alloc);
    let mut best = u64::MAX;
    for arrival in request.depart..request.until.saturating_add(1) {
        points.leave(terms, arrival);
        if let Some(cost) = points.least(request.goal, arrival, terms.stops.len()) {
            if cost < best {
                best = cost;
                points.is_whole = pairs.push(Pair { arrival, cost }).is_ok() && points.is_whole;
            }
        }
    }
    if points.is_whole { Some(pairs) } else { None }
}
