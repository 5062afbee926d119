// The states of a trip as bits that are set.
ghost use Rattle.std.specs.Prelude.{◌≡◌, ◌<◌, ◌≤◌, ◌^◌, OnOk};
ghost use Rattle.drive_states.specs.Words.{IsMarked};
ghost use Rattle.route_base.specs.declared.limits.TheConstants.{DAY_MINUTES};

use crate::bit_rows::BitRows;
use crate::node_queue::NodeQueue;
use route_base::{NodeId, OutOfMemory};

/// For each node the minutes driven since the last break, those with which a visit of the node has begun, the nodes at which there are others,
/// and how many there are in all.
#[derive(Drop)]
pub struct Marks {
    pub rows: BitRows,
    pub done: BitRows,
    pub queue: NodeQueue,
    pub count: u64,
}

/// Marks the minutes of a row at a node, all later by some minutes, up to the most. Where one is new, the node is queued. Linear in the
/// words of the row.
pub fn mark(
    marks: &mut Marks,
    v: NodeId,
    from: &[u64],
    by: u64,
    most: u64,
) -> Result<(), OutOfMemory>
    requires most { most ≤ DAY_MINUTES }
    requires room { marks.old.count < 2 ^ 63 }
    ensures { OnOk result (IsMarked marks.old marks.new v.0 from.now by most) }
{
    let fresh = marks.rows.add(v, from, by, most)?;
    marks.count += u64::from(fresh);
    if fresh > 0 {
        marks.queue.push(v.0)?;
    }
    Ok(())
}
