// A certificate of a trip to its own origin, over a net of one node.
ghost use Rattle.std.specs.Prelude.{◌≡◌, IfOk};

use route_base::{NodeId, OutOfMemory, Request, TimedNet};
use std::alloc::Global;
use uses::certified_routes;

const GOOD: &str = "lorry-certificate 1\n\
pairs 1\n\
pair 26563680 0 0\n\
bounds 1\n\
bound 1 0 0\n\
pieces 1\n\
piece 1 26563680 26563680 0 0\n\
end\n";

fn lone_node(alloc: Global) -> Result<TimedNet, OutOfMemory>
    ensures { IfOk result (λ net. net.nodes ≡ 1) }
{
    let parks = vec![in alloc; None]?;
    Ok(TimedNet::new(1, Vec::new(alloc), Vec::new(alloc), parks))
}

// The number of pairs that the bytes certify for the trip, if they do.
fn certified(alloc: Global, bytes: &[u8]) -> Result<Option<usize>, OutOfMemory> {
    let net = lone_node(alloc)?;
    let request = Request {
        origin: NodeId(1),
        goal: NodeId(1),
        depart: 26_563_680,
        until: 26_563_680,
    };
    match certified_routes(alloc, &net, request, bytes)? {
        Some(routes) => Ok(Some(routes.len())),
        None => Ok(None),
    }
}

// Texts, and the number of pairs that each certifies, if it does.
const TEXTS: &[(&str, Option<usize>)] = &[
    (GOOD, Some(1)),
    ("lorry-certificate 1\npairs 1\n", None),
    (
        "lorry-certificate 1\npairs 0\nbounds 0\npieces 0\nend\n",
        None,
    ),
];

#[test]
fn takes_the_front_of_a_good_certificate(rt: HostRuntime) {
    for (text, pairs) in TEXTS {
        assert!(rt;
            certified(rt.alloc(), text.as_bytes()) == Ok(*pairs),
            "{text}"
        );
    }
}
