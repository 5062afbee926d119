// A search for labels. Nothing is proved of them here: `label_check` tests them.
ghost use Rattle.std.specs.Prelude.{◌≡◌, ◌≤◌};
ghost use Rattle.route_base.specs.Net.{road_of};
ghost use Rattle.ruled_bounds.specs.Inside.GoodLabels.{counting_of};
ghost use Rattle.ruled_states.specs.Inside.Services.{service_at};

use crate::back_star::{BackArc, BackStar};
use crate::radix_queue::{Entry, RadixQueue};
use crate::stages::count_to;
use node_arcs::NodeArcs;
use route_base::{Minute, NodeId, OutOfMemory, Park, TimedArc, TimedNet};
use ruled_states::{Label, Ruler, Service};
use std::alloc::Global;

/// The quantity of which a search finds the least sums.
#[derive(Clone, Copy)]
pub enum Counted {
    Minutes,
    Cost,
}

impl Counted {
    pub fn of_drive(self, arc: TimedArc) -> u64
        ensures { result ≡ (counting_of self).of_drive (road_of arc) }
    {
        match self {
            Counted::Minutes => arc.minutes,
            Counted::Cost => arc.cost,
        }
    }

    pub fn of_arc(self, arc: BackArc) -> u64 {
        match self {
            Counted::Minutes => u64::from(arc.minutes),
            Counted::Cost => arc.cost,
        }
    }

    pub fn of_rest(self, rest: u64, park: Park) -> u64
        ensures { result ≤ (counting_of self).of_rest rest park.weight }
    {
        match self {
            Counted::Minutes => rest,
            Counted::Cost => rest.saturating_mul(park.weight),
        }
    }

    pub fn of_service(self, service: Service) -> u64
        ensures { result ≡ (counting_of self).of_service (service_at service) }
    {
        match self {
            Counted::Minutes => service.minutes,
            Counted::Cost => 0,
        }
    }
}

/// The net, the rules, the origin and the goal, and the first and the last minute.
#[derive(Drop)]
pub struct Ground<'a, R> {
    pub net: &'a TimedNet,
    pub incoming: &'a NodeArcs,
    pub ruler: &'a R,
    pub origin: NodeId,
    pub goal: NodeId,
    pub depart: Minute,
    pub until: Minute,
}

// The labels that are kept of each node, by rising stage and then value, and those that wait.
#[derive(Drop)]
struct Search {
    kept: Vec<Vec<Label>>,
    queue: RadixQueue,
}

// Whether a label with this need is dominated by one of the same stage among these, whose values are no larger. The last of the stage
// mostly does, if one does.
#[inline(always)]
fn is_dominated<R: Ruler>(ruler: &R, kept: &[Label], need: u64) -> bool {
    let stage = ruler.stage(need);
    let end = count_to(ruler, kept, stage);
    for label in kept[..end].iter().rev() {
        if ruler.stage(label.need) != stage {
            return false;
        }
        if ruler.is_no_worse(label.need, need) {
            return true;
        }
    }
    false
}

impl Search {
    // Whether a label of the node dominates one with this need.
    #[inline(always)]
    fn dominates<R: Ruler>(&self, ruler: &R, node: NodeId, need: u64) -> bool {
        match self.kept.get(node.0 as usize) {
            Some(kept) => is_dominated(ruler, kept.as_slice(), need),
            None => true,
        }
    }

    #[inline(always)]
    fn offer<R: Ruler>(
        &mut self,
        ruler: &R,
        node: NodeId,
        label: Label,
    ) -> Result<(), OutOfMemory> {
        if self.dominates(ruler, node, label.need) {
            return Ok(());
        }
        self.queue.push(Entry {
            value: label.value,
            need: label.need,
            node: node.0,
        })
    }

    // Keeps a label that isn't dominated. Tells whether it is kept.
    fn keep<R: Ruler>(
        &mut self,
        ruler: &R,
        node: NodeId,
        label: Label,
    ) -> Result<bool, OutOfMemory> {
        if self.dominates(ruler, node, label.need) {
            return Ok(false);
        }
        if let Some(kept) = self.kept.get_mut(node.0 as usize) {
            let end = count_to(ruler, kept.as_slice(), ruler.stage(label.need));
            kept.insert(end, label)?;
        }
        Ok(true)
    }

    #[inline(always)]
    fn drive_back<R: Ruler>(
        &mut self,
        ruler: &R,
        counted: Counted,
        arc: BackArc,
        label: Label,
    ) -> Result<(), OutOfMemory> {
        let Some(need) = ruler.drive(label.need, u64::from(arc.minutes)) else {
            return Ok(());
        };
        let value = label.value.saturating_add(counted.of_arc(arc));
        self.offer(ruler, arc.tail, Label { value, need })
    }

    fn rest_before<R: Ruler>(
        &mut self,
        ground: &Ground<'_, R>,
        counted: Counted,
        node: NodeId,
        label: Label,
    ) -> Result<(), OutOfMemory> {
        let Some(park) = ground.net.park(node) else {
            return Ok(());
        };
        for rest in ground.ruler.rests() {
            let need = ground.ruler.rest(label.need, *rest);
            if need != label.need {
                let value = label.value.saturating_add(counted.of_rest(*rest, park));
                self.offer(ground.ruler, node, Label { value, need })?;
            }
        }
        Ok(())
    }

    fn serve_before<R: Ruler>(
        &mut self,
        ground: &Ground<'_, R>,
        counted: Counted,
        node: NodeId,
        label: Label,
    ) -> Result<(), OutOfMemory> {
        let Some(place) = ground.ruler.stage(label.need).checked_sub(1) else {
            return Ok(());
        };
        if let Some(service) = ground.ruler.service(place) {
            if service.node == node {
                if let Some(need) = ground.ruler.unserve(label.need, place) {
                    let value = label.value.saturating_add(counted.of_service(service));
                    self.offer(ground.ruler, node, Label { value, need })?;
                }
            }
        }
        Ok(())
    }

    fn go_back<R: Ruler>(
        &mut self,
        ground: &Ground<'_, R>,
        star: &BackStar,
        counted: Counted,
        node: NodeId,
        label: Label,
    ) -> Result<(), OutOfMemory> {
        for arc in star.of(node) {
            self.drive_back(ground.ruler, counted, *arc, label)?;
        }
        self.rest_before(ground, counted, node, label)
    }
}

// A list without labels for each of so many nodes.
pub fn no_labels(alloc: Global, count: usize) -> Result<Vec<Vec<Label>>, OutOfMemory> {
    let mut lists = Vec::with_capacity(alloc, count)?;
    for _ in 0..count {
        lists.push(Vec::new(alloc))?;
    }
    Ok(lists)
}

// The labels of each node that are not dominated, by rising stage and then value. With a limit only those of the last stage up to it.
pub fn found_labels<R: Ruler>(
    alloc: Global,
    ground: &Ground<'_, R>,
    star: &BackStar,
    counted: Counted,
    limit: Option<u64>,
) -> Result<Vec<Vec<Label>>, OutOfMemory> {
    let mut search = Search {
        kept: no_labels(alloc, ground.net.node_count() as usize + 1)?,
        queue: RadixQueue::new(alloc)?,
    };
    let need = ground.ruler.last();
    search.offer(ground.ruler, ground.goal, Label { value: 0, need })?;
    for _ in 0..u64::MAX {
        let Some(Entry { value, need, node }) = search.queue.pop(alloc)? else {
            break;
        };
        if limit.is_some_and(|most| value > most) {
            break;
        }
        let (node, label) = (NodeId(node), Label { value, need });
        if search.keep(ground.ruler, node, label)? {
            search.go_back(ground, star, counted, node, label)?;
            if limit.is_none() {
                search.serve_before(ground, counted, node, label)?;
            }
        }
    }
    let Search { kept, queue: _ } = search;
    Ok(kept)
}
