// A worked trip: its certificate is accepted.
use crate::tests::nets::worked_net;
use certificate::write;
use certificate_check::{Verdict, check};
use plan_certificate::certify;
use route_base::{NodeId, Request};
use std::test::Fail;

// The text up to the functions, which have many right forms.
const HEAD: &str = "lorry-certificate 1
pairs 2
pair 26563920 360000 3
drive 1
wait 120
drive 2
pair 26563980 300000 1
drive 3
bounds 3
bound 1 120 120000
bound 2 60 60000
bound 3 0 0
";

#[test]
fn certifies_the_front(rt: HostRuntime) -> Result<(), Fail> {
    let alloc = rt.alloc();
    let net = worked_net(alloc)?;
    assert_eq!(rt; net.node_count(), 3);
    let request = Request {
        origin: NodeId(1),
        goal: NodeId(3),
        depart: 26563680,
        until: 26564080,
    };
    let certificate = certify(alloc, &net, request)?;
    let text = write(alloc, &certificate)?;
    assert!(rt; text.starts_with(HEAD.as_bytes()));
    assert_eq!(rt;
        check(alloc, &net, request, &certificate)?,
        Verdict::Accepted
    );
    Ok(())
}
