// The bounds of nodes as entries of a certificate.
ghost use Rattle.std.specs.Prelude.{◌≡◌, length, IfOk};
ghost use Rattle.potentials.specs.Sums.{bound_at};
ghost use Rattle.plan_certificate.specs.Inside.Entries.{AreEntriesOf};

use certificate::NodeBounds;
use route_base::{Bounds, NodeId, OutOfMemory};
use std::alloc::Global;

/// The bounds of the nodes from 1 to `nodes` that have some. Linear in the number of nodes.
pub fn known_bounds(alloc: Global, bounds: &Bounds, nodes: u32) -> Result<NodeBounds, OutOfMemory>
    requires { length bounds.now ≡ nodes }
    ensures { IfOk result (AreEntriesOf (bound_at bounds.now)) }
{
    let mut known = NodeBounds::new(alloc);
    for v in 0..nodes {
        let node = NodeId(v + 1);
        if let Some(bound) = bounds.get(node) {
            known.push((node, bound))?;
        }
    }
    Ok(known)
}
