// One label for each stage at each node that isn't far from where the stage ends: the least sum of drives and services, as if no rest were
// needed. Nothing is proved of them here: `label_check` tests them.
use crate::back_star::BackStar;
use crate::label_search::{Counted, Ground, found_labels, no_labels};
use crate::radix_queue::{Entry, RadixQueue};
use route_base::{Minute, NodeId, OutOfMemory};
use ruled_states::{Label, Labels, Ruler};
use std::alloc::Global;

// How far a stage's labels go: so many per cent of the minutes from where it begins, or so many minutes, if that is more.
const FAR_PER_CENT: u64 = 150;

const FAR_MINUTES: u64 = 60;

// Where a search over minutes ends: above the value `most`; and, once `node` has its sum, farther away than `per_cent` of its minutes and
// `minutes` are.
#[derive(Clone, Copy)]
struct Reach {
    most: u64,
    node: NodeId,
    per_cent: u64,
    minutes: u64,
}

impl Reach {
    // The largest value of a search that began at one value, and found the node at another.
    fn limit(self, begin: u64, found: u64) -> u64 {
        let away = found.saturating_sub(begin);
        let far = away.saturating_mul(self.per_cent) / 100;
        begin.saturating_add(far.max(self.minutes))
    }
}

// The least sum of each node so far, `u64::MAX` where no way is known; the nodes that have one; the sums that wait; and the value at which the
// search ended, `u64::MAX` if it found all. Lesser sums are final, and no node that has none of these is nearer than that value.
#[derive(Drop)]
struct Sums {
    least: Vec<u64>,
    reached: Vec<NodeId>,
    queue: RadixQueue,
    end: u64,
}

impl Sums {
    // No sums, for nodes below a count.
    fn new(alloc: Global, count: usize) -> Result<Sums, OutOfMemory> {
        let mut least = Vec::with_capacity(alloc, count)?;
        for _ in 0..count {
            least.push(u64::MAX)?;
        }
        Ok(Sums {
            least,
            reached: Vec::new(alloc),
            queue: RadixQueue::new(alloc)?,
            end: u64::MAX,
        })
    }

    // Forgets the sums of a search, and keeps the memory. Linear in the nodes that it reached.
    fn clear(&mut self) {
        for node in self.reached.as_slice() {
            if let Some(least) = self.least.get_mut(node.0 as usize) {
                *least = u64::MAX;
            }
        }
        self.reached.clear();
        self.queue.clear();
        self.end = u64::MAX;
    }

    // The sum of a node so far; `u64::MAX` where there is none.
    #[inline(always)]
    fn sum(&self, node: NodeId) -> u64 {
        match self.least.get(node.0 as usize) {
            Some(value) => *value,
            None => u64::MAX,
        }
    }

    // A lower bound of the sum of a node: its sum, or the value at which the search ended.
    fn bound(&self, node: NodeId) -> u64 {
        self.sum(node).min(self.end)
    }

    #[inline(always)]
    fn is_near(&self, node: NodeId) -> bool {
        self.sum(node) < self.end
    }

    // The number of nodes whose sums are final.
    fn near_count(&self) -> usize {
        let mut count: usize = 0;
        for node in self.reached.as_slice() {
            if self.is_near(*node) {
                count = count.saturating_add(1);
            }
        }
        count
    }

    #[inline(always)]
    fn offer(&mut self, node: NodeId, value: u64) -> Result<(), OutOfMemory> {
        let known = self.sum(node);
        if known <= value {
            return Ok(());
        }
        let Some(least) = self.least.get_mut(node.0 as usize) else {
            return Ok(());
        };
        *least = value;
        if known == u64::MAX {
            self.reached.push(node)?;
        }
        self.queue.push(Entry {
            value,
            need: 0,
            node: node.0,
        })
    }

    // Takes out the least sum that waits and is still that of its node.
    fn next(&mut self, alloc: Global) -> Result<Option<Entry>, OutOfMemory> {
        for _ in 0..u64::MAX {
            let Some(entry) = self.queue.pop(alloc)? else {
                return Ok(None);
            };
            if self.sum(NodeId(entry.node)) == entry.value {
                return Ok(Some(entry));
            }
        }
        Ok(None)
    }

    // Relaxes, backwards, the arcs into a node that may be driven at once after a rest.
    fn go_back<R: Ruler>(
        &mut self,
        ground: &Ground<'_, R>,
        star: &BackStar,
        counted: Counted,
        need: u64,
        entry: Entry,
    ) -> Result<(), OutOfMemory> {
        for arc in star.of(NodeId(entry.node)) {
            if ground.ruler.drive(need, u64::from(arc.minutes)).is_some() {
                let value = entry.value.saturating_add(counted.of_arc(*arc));
                self.offer(arc.tail, value)?;
            }
        }
        Ok(())
    }

    // The least sums of minutes from each node to one at which they begin with the value of a label.
    fn find_minutes<R: Ruler>(
        &mut self,
        alloc: Global,
        ground: &Ground<'_, R>,
        star: &BackStar,
        node: NodeId,
        label: Label,
        reach: Reach,
    ) -> Result<(), OutOfMemory> {
        self.clear();
        self.offer(node, label.value)?;
        let mut most = reach.most;
        for _ in 0..u64::MAX {
            let Some(entry) = self.next(alloc)? else {
                break;
            };
            if entry.value > most {
                self.end = entry.value;
                break;
            }
            if entry.node == reach.node.0 {
                most = most.min(reach.limit(label.value, entry.value));
            }
            self.go_back(ground, star, Counted::Minutes, label.need, entry)?;
        }
        Ok(())
    }

    // The least sums of costs. The search ends once all nodes that are near by minutes have theirs, if there are others.
    fn find_costs<R: Ruler>(
        &mut self,
        alloc: Global,
        ground: &Ground<'_, R>,
        star: &BackStar,
        node: NodeId,
        label: Label,
        minutes: &Sums,
    ) -> Result<(), OutOfMemory> {
        self.clear();
        self.offer(node, label.value)?;
        let mut left = minutes.near_count();
        for _ in 0..u64::MAX {
            let Some(entry) = self.next(alloc)? else {
                break;
            };
            if minutes.is_near(NodeId(entry.node)) {
                left = left.saturating_sub(1);
            }
            if left == 0 && minutes.end < u64::MAX {
                self.end = entry.value;
                break;
            }
            self.go_back(ground, star, Counted::Cost, label.need, entry)?;
        }
        Ok(())
    }

    // Adds a label with this need to each node whose sum is final, and one that counts for every node, if there are others.
    fn add_labels(&self, lists: &mut Vec<Vec<Label>>, need: u64) -> Result<(), OutOfMemory> {
        for node in self.reached.as_slice() {
            let value = self.sum(*node);
            if value < self.end {
                if let Some(list) = lists.get_mut(node.0 as usize) {
                    list.push(Label { value, need })?;
                }
            }
        }
        if self.end < u64::MAX {
            if let Some(list) = lists.get_mut(0) {
                list.push(Label {
                    value: self.end,
                    need,
                })?;
            }
        }
        Ok(())
    }

    // Whether labels give the nodes with sums below a limit about these sums, all together.
    fn are_about(&self, lists: &[Vec<Label>], most: u64) -> bool {
        let mut with: u64 = 0;
        let mut without: u64 = 0;
        for node in self.reached.as_slice() {
            let sum = self.sum(*node);
            if sum >= most {
                continue;
            }
            let Some(list) = lists.get(node.0 as usize) else {
                return false;
            };
            let Some(value) = least_value(list.as_slice()) else {
                return false;
            };
            with = with.saturating_add(value);
            without = without.saturating_add(sum);
        }
        with.saturating_mul(100) <= without.saturating_mul(NEAR_PER_CENT)
    }
}

// The need of the goal after a rest: none is less.
fn rested<R: Ruler>(ruler: &R) -> u64 {
    ruler.rest(ruler.last(), u64::MAX)
}

// The end of a stage: the node to which it leads, the labels there, and the latest minute for bounds to the goal in it.
#[derive(Clone, Copy)]
struct StageEnd {
    node: NodeId,
    minutes: Label,
    cost: Label,
    latest: Minute,
}

// The end of the stage before the service at a place, by that after it and the sums there; none where the service isn't reached.
fn end_before<R: Ruler>(
    ground: &Ground<'_, R>,
    after: StageEnd,
    minutes: &Sums,
    costs: &Sums,
    place: u64,
) -> Option<StageEnd> {
    let service = ground.ruler.service(place)?;
    let need = ground.ruler.unserve(after.minutes.need, place)?;
    let behind = minutes.bound(service.node);
    let cost = costs.bound(service.node);
    if behind == u64::MAX || cost == u64::MAX {
        return None;
    }
    Some(StageEnd {
        node: service.node,
        minutes: Label {
            value: behind.saturating_add(service.minutes),
            need,
        },
        cost: Label { value: cost, need },
        latest: service.to.saturating_add(behind).min(after.latest),
    })
}

// The first minute of the stage in which `served` services are done.
fn begin_of<R: Ruler>(ground: &Ground<'_, R>, served: u64) -> Minute {
    let Some(place) = served.checked_sub(1) else {
        return ground.depart;
    };
    match ground.ruler.service(place) {
        Some(service) => service.from.saturating_add(service.minutes),
        None => ground.depart,
    }
}

// The node at which the stage begins in which `served` services are done.
fn begin_node<R: Ruler>(ground: &Ground<'_, R>, served: u64) -> NodeId {
    let Some(place) = served.checked_sub(1) else {
        return ground.origin;
    };
    match ground.ruler.service(place) {
        Some(service) => service.node,
        None => ground.origin,
    }
}

// How far the labels of a stage go: a state whose bound can't be in time is late, whatever its bound is beyond that.
fn reach_of<R: Ruler>(ground: &Ground<'_, R>, end: StageEnd, served: u64) -> Reach {
    let begin = begin_of(ground, served);
    Reach {
        most: end.latest.saturating_sub(begin).saturating_add(1),
        node: begin_node(ground, served),
        per_cent: FAR_PER_CENT,
        minutes: FAR_MINUTES,
    }
}

// The end of the last stage.
fn last_end<R: Ruler>(ground: &Ground<'_, R>) -> StageEnd {
    let label = Label {
        value: 0,
        need: rested(ground.ruler),
    };
    StageEnd {
        node: ground.goal,
        minutes: label,
        cost: label,
        latest: ground.until,
    }
}

// Turns the order of each list round.
fn reverse_all(lists: &mut Vec<Vec<Label>>) {
    for v in 0..lists.len() {
        lists[v].reverse();
    }
}

// For each node the labels of all stages in which it isn't far from where the stage ends, by rising stage: of minutes, and of costs. At place 0
// each stage that has nodes farther away has a label for all of these: the value at which its search ended, so no larger than what they would
// have.
pub fn stage_labels<R: Ruler>(
    alloc: Global,
    ground: &Ground<'_, R>,
    star: &BackStar,
) -> Result<Labels, OutOfMemory> {
    let count = ground.net.node_count() as usize + 1;
    let mut minute_lists = no_labels(alloc, count)?;
    let mut cost_lists = no_labels(alloc, count)?;
    let mut minutes = Sums::new(alloc, count)?;
    let mut costs = Sums::new(alloc, count)?;
    let mut end = last_end(ground);
    let mut served = ground.ruler.service_count();
    for _ in 0..u64::MAX {
        let reach = reach_of(ground, end, served);
        minutes.find_minutes(alloc, ground, star, end.node, end.minutes, reach)?;
        costs.find_costs(alloc, ground, star, end.node, end.cost, &minutes)?;
        minutes.add_labels(&mut minute_lists, end.minutes.need)?;
        costs.add_labels(&mut cost_lists, end.cost.need)?;
        let Some(place) = served.checked_sub(1) else {
            break;
        };
        let Some(before) = end_before(ground, end, &minutes, &costs, place) else {
            break;
        };
        served = place;
        end = before;
    }
    reverse_all(&mut minute_lists);
    reverse_all(&mut cost_lists);
    Ok(Labels {
        minutes: minute_lists,
        costs: cost_lists,
    })
}

// The least value of a label; none without labels.
fn least_value(labels: &[Label]) -> Option<u64> {
    let mut least = None;
    for label in labels {
        least = match least {
            Some(known) => Some(label.value.min(known)),
            None => Some(label.value),
        };
    }
    least
}

// Breaks matter little if ways with them take at most this percentage of the minutes without.
const NEAR_PER_CENT: u64 = 120;

// The node of the last service.
fn last_node<R: Ruler>(ruler: &R) -> Option<NodeId> {
    let place = ruler.service_count().checked_sub(1)?;
    Some(ruler.service(place)?.node)
}

// Whether ways to the goal from around the last service take about as long with their breaks as without. Then one label for each stage says
// nearly as much as all that aren't dominated. If there is no way from there it is so too. Two searches, of which one goes as far as the last
// service, and one twice as far.
pub fn breaks_matter_little<R: Ruler>(
    alloc: Global,
    ground: &Ground<'_, R>,
    star: &BackStar,
) -> Result<bool, OutOfMemory> {
    let Some(node) = last_node(ground.ruler) else {
        return Ok(false);
    };
    let label = Label {
        value: 0,
        need: rested(ground.ruler),
    };
    let reach = Reach {
        most: u64::MAX,
        node,
        per_cent: 100,
        minutes: 0,
    };
    let mut sums = Sums::new(alloc, ground.net.node_count() as usize + 1)?;
    sums.find_minutes(alloc, ground, star, ground.goal, label, reach)?;
    let most = sums.sum(node);
    if most == u64::MAX {
        return Ok(true);
    }
    let limit = Some(most.saturating_mul(2));
    let lists = found_labels(alloc, ground, star, Counted::Minutes, limit)?;
    Ok(sums.are_about(lists.as_slice(), most))
}
