// A small network: rows and columns, each in its place.
use drawn_network::draw_network;
use route_base::{ArcId, NodeId};

#[test]
fn draws_two_rows_of_three_nodes(rt: HostRuntime) {
    let drawn = draw_network(rt.alloc(), 7, 2, 3).expect(&rt, "memory");
    let graph = drawn.network.graph();
    let below = graph.arc(ArcId(3)).expect(&rt, "an arc");
    assert!(rt; graph.node_count() == 6 && graph.arc_count() == 14);
    assert!(rt; below.tail == NodeId(1) && below.head == NodeId(4));
}
