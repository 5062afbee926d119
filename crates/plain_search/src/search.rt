// A search: the net, the request, and the arcs at each node.
ghost use Rattle.std.specs.Prelude.{◌≡◌, IfOk};
ghost use Rattle.route_base.specs.Net.{IsGoodNet};
ghost use Rattle.node_arcs.specs.Stars.{AreOutgoing, AreIncoming};
ghost use Rattle.plain_search.specs.Inside.Soundness.{IsAsked};

use node_arcs::NodeArcs;
use route_base::{OutOfMemory, Request, TimedNet, net_is_good};
use std::alloc::Global;

/// A request over a net, with the forward and the backward star of the net.
#[derive(Drop)]
pub struct Search<'a> {
    pub net: &'a TimedNet,
    pub request: Request,
    pub outgoing: NodeArcs,
    pub incoming: NodeArcs,
    ghost good: { IsGoodNet net.now },
    ghost asked: { IsAsked net.now request },
    ghost forward: { ∥ AreOutgoing net.now outgoing ∥₁ },
    ghost backward: { ∥ AreIncoming net.now incoming ∥₁ },
}

impl<'a> Search<'a> {
    /// The search of a request over a net, in time linear in its nodes and arcs.
    pub fn new(
        alloc: Global,
        net: &'a TimedNet,
        request: Request,
    ) -> Result<Search<'a>, OutOfMemory>
        requires { IsAsked net.now request }
        ensures net { IfOk result (λ search. search.net.now ≡ net.now) }
        ensures request { IfOk result (λ search. search.request ≡ request) }
    {
        let outgoing = NodeArcs::outgoing(alloc, net)?;
        let incoming = NodeArcs::incoming(alloc, net)?;
        net_is_good(net);
        Ok(Search {
            net,
            request,
            outgoing,
            incoming,
        })
    }
}
