// The bounds of layers, by those of the roads.
ghost use Rattle.std.specs.Prelude.{◌≡◌, ◌+◌, ◌≤◌, ◌++◌, All, IfOk, OnOk, flat_map, reverse};
ghost use Rattle.stop_tour.specs.Words.{IsGoodStop, sum_of, bound_in, ahead_of, bounds_of};
ghost use Rattle.stop_tour.specs.Words.{AreLayers, IsLastLayer, IsLayerBefore, AreTourBounds};
ghost use Rattle.node_arcs.specs.Stars.{AreIncoming};

use crate::Stop;
use node_arcs::NodeArcs;
use potentials::to_goal_over;
use route_base::{Bound, Bounds, NodeId, OutOfMemory, TimedNet};
use std::alloc::Global;

/// The bounds of a layer in two parts: over the roads from each node to the layer's stop, or in the last layer to the goal, and from
/// there to the end of the tour, if it can be reached.
#[derive(Drop)]
pub struct LayerBounds {
    roads: Bounds,
    ahead: Option<Bound>,
}

// The sum of two bounds, of which each part goes up to the largest number.
fn sum(a: Bound, b: Bound) -> Bound
    ensures { result ≡ sum_of a b }
{
    Bound {
        minutes: a.minutes.saturating_add(b.minutes),
        cost: a.cost.saturating_add(b.cost),
    }
}

// The bound of a node of a layer.
fn bound_in(layer: &LayerBounds, node: NodeId) -> Option<Bound>
    ensures { result ≡ bound_in layer.now node.0 }
{
    Some(sum(layer.roads.get(node)?, layer.ahead?))
}

// The bound from the start of a service to the end of the tour, where the next layer is known.
fn ahead_of(stop: Stop, next: &LayerBounds) -> Option<Bound>
    ensures { result ≡ ahead_of stop (bound_in next.now stop.node.0) }
{
    let service = Bound {
        minutes: stop.service,
        cost: 0,
    };
    Some(sum(service, bound_in(next, stop.node)?))
}

// The layer of the goal.
fn last_layer(
    alloc: Global,
    net: &TimedNet,
    incoming: &NodeArcs,
    goal: NodeId,
) -> Result<LayerBounds, OutOfMemory>
    requires incoming { AreIncoming net.now incoming.now }
    requires low { 1 ≤ goal.0 }
    requires high { goal.0 ≤ net.now.nodes }
    ensures { IfOk result (IsLastLayer net.now goal.0) }
{
    let roads = to_goal_over(alloc, net, incoming, goal)?;
    let ahead = Some(Bound {
        minutes: 0,
        cost: 0,
    });
    Ok(LayerBounds { roads, ahead })
}

// The layer of a stop, where the next layer is known.
fn layer_before(
    alloc: Global,
    net: &TimedNet,
    incoming: &NodeArcs,
    stop: Stop,
    next: &LayerBounds,
) -> Result<LayerBounds, OutOfMemory>
    requires incoming { AreIncoming net.now incoming.now }
    requires stop { IsGoodStop net.now stop }
    ensures { IfOk result (IsLayerBefore net.now stop (bound_in next.now stop.node.0)) }
{
    let roads = to_goal_over(alloc, net, incoming, stop.node)?;
    let ahead = ahead_of(stop, next);
    Ok(LayerBounds { roads, ahead })
}

// The layers, the last one first.
fn layers_backwards(
    alloc: Global,
    net: &TimedNet,
    goal: NodeId,
    stops: &[Stop],
) -> Result<Vec<LayerBounds>, OutOfMemory>
    requires low { 1 ≤ goal.0 }
    requires high { goal.0 ≤ net.now.nodes }
    requires stops { All (IsGoodStop net.now) stops.now }
    ensures { IfOk result (λ layers.
        AreLayers net.now goal.0 stops.now (reverse layers.items)) }
{
    let incoming = NodeArcs::incoming(alloc, net)?;
    let mut layers = Vec::with_capacity(alloc, stops.len() + 1)?;
    let mut first = last_layer(alloc, net, &incoming, goal)?;
    let mut left = stops.len();
    while left > 0 {
        left -= 1;
        let before = layer_before(alloc, net, &incoming, stops[left], &first)?;
        layers.push(first)?;
        first = before;
    }
    layers.push(first)?;
    Ok(layers)
}

// Adds the bounds of a layer's nodes.
fn push_bounds(over: &mut Bounds, layer: &LayerBounds, nodes: u32) -> Result<(), OutOfMemory>
    ensures { OnOk result (over.new ≡ over.old ++ bounds_of layer.now nodes) }
{
    for place in 0..nodes {
        over.push(bound_in(layer, NodeId(place + 1)))?;
    }
    Ok(())
}

// The bounds of all layers. Each layer is given back once its bounds are added.
fn bounds_of_all(alloc: Global, layers: Vec<LayerBounds>, nodes: u32) -> Result<Bounds, OutOfMemory>
    ensures { IfOk result (λ over. over
        ≡ flat_map (λ layer. bounds_of layer nodes) (reverse layers.items)) }
{
    let mut over = Bounds::new(alloc);
    let mut left = layers;
    'layers: while let Some(layer) = left.pop() {
        push_bounds(&mut over, &layer, nodes)?;
    }
    Ok(over)
}

/// The bounds of the layered net, layer after layer. It takes the time of `to_goal_over` for the goal and for each stop, and is linear
/// in the nodes of all layers, in time and memory.
pub fn tour_bounds(
    alloc: Global,
    net: &TimedNet,
    goal: NodeId,
    stops: &[Stop],
) -> Result<Bounds, OutOfMemory>
    requires low { 1 ≤ goal.0 }
    requires high { goal.0 ≤ net.now.nodes }
    requires stops { All (IsGoodStop net.now) stops.now }
    ensures { IfOk result (AreTourBounds net.now goal.0 stops.now) }
{
    let layers = layers_backwards(alloc, net, goal, stops)?;
    bounds_of_all(alloc, layers, net.node_count())
}
