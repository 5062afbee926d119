// The six conditions, one after another.
ghost use Rattle.std.specs.Prelude.{◌≡◌, IfOk};
ghost use Rattle.route_base.specs.Net.{setting_of, IsGoodRequest};
ghost use Rattle.route_base.specs.Front.{IsFront, pairs_of};
ghost use Rattle.certificate_check.specs.Conditions.{AreBoundsInRange};
ghost use Rattle.certificate_check.specs.Inside.Reduction.{IsReduction};
ghost use Rattle.certificate_check.specs.Verdicts.{IsVerdict};
ghost use Rattle.certificate_check.specs.declared.checker.Verdict.TheVariants.{Accepted};

use crate::bounds::are_node_bounds;
use crate::goal::is_goal_covered;
use crate::legs::are_achieved;
use crate::lookup::{pieces_of, places_of};
use crate::pairs::{are_ordered, pairs_of_routes};
use crate::reduction::{are_reduced, reduced_copy};
use crate::start::is_start_relaxed;
use crate::steps::are_functions_relaxed;
use certificate::{Certificate, NodeFunctions};
use route_base::{OutOfMemory, Pair, Request, TimedNet};
use std::alloc::Global;

/// That a certificate is good, or the number of the first condition that fails.
#[derive(Clone, Copy, Debug, PartialEq, Eq)]
pub enum Verdict {
    Accepted,
    Rejected(u32),
}

/// Whether the certificate is good for this net and request: then its pairs are the Pareto front.
///
/// One binary search for each leg in the closed runs of its arc, and a few for each arc and each rated node, at each break and each
/// piece of the reduced functions; where nodes are left out of the bounds, one for each end of an arc. Reducing is linear in the
/// number of pieces. Memory for the list of pairs, 8 bytes a node, and only where a function isn't reduced for a reduced copy of the
/// functions.
pub fn check(
    alloc: Global,
    net: &TimedNet,
    request: Request,
    certificate: &Certificate,
) -> Result<Verdict, OutOfMemory>
    requires request { IsGoodRequest net.now request }
    requires bounds { AreBoundsInRange certificate.now.bounds }
    ensures verdict { IfOk result (IsVerdict (setting_of net.now) request certificate.now) }
    ensures sound { IfOk result (λ verdict. verdict ≡ Accepted
        → IsFront (setting_of net.now) request (pairs_of certificate.now.routes)) }
{
    let pairs = pairs_of_routes(alloc, certificate.routes.as_slice())?;
    let functions = &certificate.functions;
    let places = places_of(alloc, functions, net.node_count())?;
    if are_reduced(functions) {
        return Ok(verdict_of(net, request, &pairs, certificate, functions, &places));
    }
    let reduced = reduced_copy(alloc, functions)?;
    Ok(verdict_of(net, request, &pairs, certificate, &reduced, &places))
}

// The verdict, where the pairs are at hand as a list of their own, and the functions are reduced and looked for at these places. No
// memory.
fn verdict_of(
    net: &TimedNet,
    request: Request,
    pairs: &[Pair],
    certificate: &Certificate,
    reduced: &NodeFunctions,
    places: &[usize],
) -> Verdict
    requires request { IsGoodRequest net.now request }
    requires bounds { AreBoundsInRange certificate.now.bounds }
    requires pairs { pairs.now ≡ pairs_of certificate.now.routes }
    requires reduced { IsReduction reduced.now certificate.now.functions }
    ensures { IsVerdict (setting_of net.now) request certificate.now result }
{
    if !are_ordered(request.until, pairs) {
        return Verdict::Rejected(1);
    }
    if !are_achieved(net, request, certificate.routes.as_slice()) {
        return Verdict::Rejected(2);
    }
    if !are_node_bounds(net, request.goal, &certificate.bounds) {
        return Verdict::Rejected(3);
    }
    if !is_start_relaxed(request, pairs, certificate) {
        return Verdict::Rejected(4);
    }
    if !are_functions_relaxed(net, request, pairs, certificate, reduced, places) {
        return Verdict::Rejected(5);
    }
    if !is_goal_covered(pairs, pieces_of(&certificate.functions, request.goal)) {
        return Verdict::Rejected(6);
    }
    Verdict::Accepted
}
