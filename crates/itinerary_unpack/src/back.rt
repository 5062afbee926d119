// Back from a pair to the start.
ghost use Rattle.std.specs.Prelude.{◌<◌, length, reverse, Contains, IfOk};
ghost use Rattle.route_base.specs.Itinerary.{Walks};
ghost use Rattle.route_base.specs.Legs.{steps_of, start_of, end_of};
ghost use Rattle.route_base.specs.FirstItinerary.{IsFirst};
ghost use Rattle.itinerary_unpack.specs.Words.{AreIncoming, AreUnpacked, IsAnswered};
ghost use Rattle.itinerary_unpack.specs.Inside.Requests.{IsSolved, setting_in};
ghost use Rattle.tidy_legs.specs.Words.{IsTidy};

use crate::solved::Solved;
use crate::sources::source_of;
use node_arcs::NodeArcs;
use propagation::Found;
use route_base::{Leg, Legs, OutOfMemory, Pair, Request, TimedNet};
use std::alloc::Global;
use tidy_legs::push_leg;

/// The legs of pair k, counted from 0, in the order of travel: lawful ones without neighbouring waits, and the first of the pair's
/// itineraries. Takes two binary searches for each arc that comes into the end of a drive, a few more for each drive and for each
/// piece that a wait goes over, and memory for the arcs by node.
/// For other callers: the program has all legs by `routes_of`, over arcs that are put in order once.
pub fn unpack(
    alloc: Global,
    net: &TimedNet,
    request: Request,
    found: &Found,
    k: usize,
) -> Result<Legs, OutOfMemory>
    requires found { IsAnswered net.now request found.now }
    requires one { k < length found.now.pairs }
    ensures { IfOk result (AreUnpacked net.now request found.now k) }
{
    let incoming = NodeArcs::incoming(alloc, net)?;
    unpack_over(alloc, net, &incoming, request, found, k)
}

/// The same for arcs that were put in order already.
pub fn unpack_over(
    alloc: Global,
    net: &TimedNet,
    incoming: &NodeArcs,
    request: Request,
    found: &Found,
    k: usize,
) -> Result<Legs, OutOfMemory>
    requires incoming { AreIncoming net.now incoming.now }
    requires found { IsAnswered net.now request found.now }
    requires one { k < length found.now.pairs }
    ensures { IfOk result (AreUnpacked net.now request found.now k) }
{
    let solved = Solved {
        net,
        request,
        incoming,
        found,
    };
    let mut legs = legs_back(alloc, solved, found.pairs()[k])?;
    legs.reverse();
    Ok(Legs::from_vec(legs))
}

// The legs of a pair, the last first.
fn legs_back(alloc: Global, solved: Solved<'_>, pair: Pair) -> Result<Vec<Leg>, OutOfMemory>
    requires solved { IsSolved solved }
    requires one { Contains solved.found.now.pairs pair }
    ensures tidy { IfOk result (λ legs. IsTidy (reverse legs.items)) }
    ensures walk { IfOk result (λ legs. Walks (setting_in solved.entry) solved.entry.request.until
        (steps_of (reverse legs.items)) (start_of solved.entry.request) (end_of solved.entry.request pair)) }
    ensures first { IfOk result (λ legs. IsFirst (setting_in solved.entry) solved.entry.request
        (reverse legs.items) pair) }
{
    let mut legs = Vec::new(alloc);
    let mut node = solved.request.goal;
    let mut minute = pair.arrival;
    'back: while node.0 != solved.request.origin.0 || minute != solved.request.depart {
        let cost = solved.found.function(node).at(minute).unwrap_or(0);
        let source = source_of(solved, node, minute, cost);
        push_leg(&mut legs, source.leg)?;
        node = source.node;
        minute = source.minute;
    }
    Ok(legs)
}
