// The fifth condition: the steps from all values of all functions.
ghost use Rattle.std.specs.Prelude.{◌≡◌, ◌↔◌, ◌≤◌, ℕ, IsTrue, All};
ghost use Rattle.route_base.specs.Net.{setting_of};
ghost use Rattle.route_base.specs.Front.{RiseAndFall};
ghost use Rattle.cost_functions.specs.Pieces.{value_at, ArePieces};
ghost use Rattle.certificate.specs.ByNode.{item_at};
ghost use Rattle.certificate_check.specs.Conditions.{IsInRange, AreFunctionsRelaxed, AreBoundsInRange};
ghost use Rattle.certificate_check.specs.Inside.Reduction.{IsReduction};
ghost use Rattle.certificate_check.specs.Inside.Steps.{IsGoodTrial, AreDrivesRelaxedIn, AreWaitsRelaxedIn, values_in};

use crate::bounds::is_node;
use crate::lookup::{bound_of, pieces_near};
use crate::sweep::{Passage, pieces_pass};
use certificate::{Certificate, NodeBounds, NodeFunctions};
use cost_functions::Piece;
use route_base::{ArcId, Minute, NodeId, Pair, Request, TimedNet};

/// Whether the functions are of nodes of the net and at minutes of the request, and all steps from their values are relaxed. The
/// steps are those from the reduced functions, which have the same values in fewer pieces, and are looked for where `places_of`
/// says. For each arc and each rated node a few binary searches for each piece of its function, and for each closed run and each
/// piece of the other function that the piece meets; no memory.
pub fn are_functions_relaxed(
    net: &TimedNet,
    request: Request,
    pairs: &[Pair],
    certificate: &Certificate,
    reduced: &NodeFunctions,
    places: &[usize],
) -> bool
    requires pairs { RiseAndFall pairs.now }
    requires bounds { AreBoundsInRange certificate.now.bounds }
    requires reduced { IsReduction reduced.now certificate.now.functions }
    ensures { IsTrue result ↔ AreFunctionsRelaxed (setting_of net.now) request pairs.now
        (item_at certificate.now.bounds) certificate.now.functions }
{
    if !are_in_range(net, request, &certificate.functions) {
        return false;
    }
    let trial = Trial {
        net,
        until: request.until,
        pairs,
        bounds: &certificate.bounds,
        functions: reduced,
        places,
    };
    if !are_drives_relaxed(trial) {
        return false;
    }
    are_waits_relaxed(trial)
}

// Whether the functions are of nodes of the net and at minutes of the request. Linear in the number of pieces.
fn are_in_range(net: &TimedNet, request: Request, functions: &NodeFunctions) -> bool
    ensures { IsTrue result ↔ All (IsInRange (setting_of net.now) request) functions.now }
{
    for entry in functions.as_slice() {
        if !is_node(net, entry.0) || !are_within(request, entry.1.pieces()) {
            return false;
        }
    }
    true
}

// Whether the pieces have minutes of the request alone.
fn are_within(request: Request, pieces: &[Piece]) -> bool
    ensures { IsTrue result
        ↔ All (λ p. (request.depart ≤ p.lo) × (p.hi ≤ request.until)) pieces.now }
{
    pieces.iter().all(|piece| request.depart <= piece.lo && piece.hi <= request.until)
}

// The functions whose steps are tested, where each is looked for first, and what the steps are held against.
#[derive(Clone, Copy)]
pub struct Trial<'a> {
    net: &'a TimedNet,
    until: Minute,
    pairs: &'a [Pair],
    bounds: &'a NodeBounds,
    functions: &'a NodeFunctions,
    places: &'a [usize],
}

// Whether the drives over all arcs are relaxed.
fn are_drives_relaxed(trial: Trial<'_>) -> bool
    requires { IsGoodTrial trial }
    ensures { IsTrue result ↔ ((a : ℕ) → AreDrivesRelaxedIn trial.entry a) }
{
    for k in 0..trial.net.arc_count() {
        if !are_drives_over_relaxed(trial, ArcId(k + 1)) {
            return false;
        }
    }
    true
}

// Whether the drives over one arc are relaxed: there are none from a tail without a function.
fn are_drives_over_relaxed(trial: Trial<'_>, a: ArcId) -> bool
    requires { IsGoodTrial trial }
    ensures { IsTrue result ↔ AreDrivesRelaxedIn trial.entry a.0 }
{
    let Some(arc) = trial.net.arc(a) else {
        return true;
    };
    let pieces = pieces_in(trial, arc.tail);
    if pieces.is_empty() {
        return true;
    }
    let passage = Passage {
        minutes: arc.minutes,
        cost: arc.cost,
        closed: trial.net.closed_runs(a),
        from: bound_of(trial.bounds, arc.tail),
        to: bound_of(trial.bounds, arc.head),
        values: pieces_in(trial, arc.head),
    };
    pieces_pass(trial.until, trial.pairs, passage, pieces)
}

// The pieces of a node's function; none where it has no function.
fn pieces_in(trial: Trial<'_>, node: NodeId) -> &[Piece]
    ensures pieces { ArePieces result.now }
    ensures values { (t : ℕ) → value_at result.now t ≡ values_in trial.entry node.0 t }
{
    let place = trial.places.get((node.0 as usize).saturating_sub(1));
    pieces_near(trial.functions, node, place.copied().unwrap_or(0))
}

// Whether the waits at all nodes are relaxed.
fn are_waits_relaxed(trial: Trial<'_>) -> bool
    requires { IsGoodTrial trial }
    ensures { IsTrue result ↔ ((v : ℕ) → AreWaitsRelaxedIn trial.entry v) }
{
    for k in 0..trial.net.node_count() {
        if !are_waits_at_relaxed(trial, NodeId(k + 1)) {
            return false;
        }
    }
    true
}

// Whether the waits at one node are relaxed.
fn are_waits_at_relaxed(trial: Trial<'_>, v: NodeId) -> bool
    requires trial { IsGoodTrial trial }
    requires low { 1 ≤ v.0 }
    requires high { v.0 ≤ trial.net.now.nodes }
    ensures { IsTrue result ↔ AreWaitsRelaxedIn trial.entry v.0 }
{
    let Some(weight) = trial.net.weight(v) else {
        return true;
    };
    let bound = bound_of(trial.bounds, v);
    let pieces = pieces_in(trial, v);
    let passage = Passage {
        minutes: 1,
        cost: weight,
        closed: trial.net.shut_runs(v),
        from: bound,
        to: bound,
        values: pieces,
    };
    pieces_pass(trial.until, trial.pairs, passage, pieces)
}
