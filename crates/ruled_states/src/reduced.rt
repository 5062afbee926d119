// Sums of what is paid above a price for each minute, by stage and node.
ghost use Rattle.std.specs.Prelude.{◌≡◌};
ghost use Rattle.ruled_states.specs.Inside.Reduced.{reduced_in, sums_of};

use route_base::NodeId;

/// The least price of a minute, and for each stage and node, both from 0 on, the least that is paid above it on the way to the stop.
#[derive(Drop)]
pub struct ReducedSums {
    pub price: u64,
    pub sums: Vec<Vec<u64>>,
}

impl ReducedSums {
    /// The sum of a node at a stage; 0 where there is none. In constant time.
    #[inline(always)]
    pub fn of(&self, node: NodeId, stage: u64) -> u64
        ensures { result ≡ reduced_in (sums_of self.now.sums.items) node.0 stage }
    {
        let Some(list) = self.sums.get(stage as usize) else {
            return 0;
        };
        match list.get(node.0 as usize) {
            Some(sum) => *sum,
            None => 0,
        }
    }
}
