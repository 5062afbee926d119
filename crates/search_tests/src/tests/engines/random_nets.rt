// Random nets.
ghost use Rattle.std.specs.Prelude.{◌≤◌, ◌<◌};

use super::fronts::fronts_of;
use super::nets::NetLists;
use route_base::{NodeId, Park, Request, Run, TimedArc};
use std::alloc::Global;
use std::test::Fail;

const SEED: u64 = 20201207;

const NETS: u64 = 100_000;

// The lists of closed runs of a net.
pub const LISTS: u32 = 3;

// Numbers that look random: the high bits of a linear congruential generator (source: Knuth, MMIX).
#[derive(Drop)]
pub struct Random {
    pub state: u64,
}

impl Random {
    fn next(&mut self) -> u64 {
        self.state = self
            .state
            .wrapping_mul(6364136223846793005)
            .wrapping_add(1442695040888963407);
        self.state >> 33
    }

    pub fn below(&mut self, n: u64) -> u64
        requires { 1 ≤ n }
        ensures { result < n }
    {
        self.next() % n
    }

    pub fn node(&mut self, nodes: u32) -> NodeId
        requires { 1 ≤ nodes }
    {
        NodeId(self.below(nodes as u64) as u32 + 1)
    }
}

// The most arcs, runs and nodes of a net.
const MOST_ARCS: usize = 12;

const MOST_RUNS: usize = 12;

const MOST_NODES: usize = 6;

// A net and a request: the first of the arcs are the net's, and empty runs are none.
#[derive(Clone, Copy)]
pub struct Case {
    pub nodes: u32,
    arc_count: usize,
    arcs: [TimedArc; MOST_ARCS],
    closed: [(u32, Run); MOST_RUNS],
    parks: [Option<Park>; MOST_NODES],
    pub request: Request,
}

impl Case {
    pub fn lists(&self) -> NetLists<'_> {
        NetLists {
            nodes: self.nodes,
            arcs: &self.arcs[..self.arc_count.min(MOST_ARCS)],
            lists: LISTS,
            closed: &self.closed,
            parks: &self.parks,
        }
    }
}

pub fn random_case(random: &mut Random) -> Case {
    let nodes = random.below(4) as u32 + 3;
    let depart = random.below(10);
    let arc_count = random.below(13) as usize;
    Case {
        nodes,
        arc_count,
        arcs: random_arcs(random, nodes, arc_count),
        closed: random_runs(random),
        parks: random_parks(random, nodes),
        request: Request {
            origin: random.node(nodes),
            goal: random.node(nodes),
            depart,
            until: depart + random.below(31),
        },
    }
}

// An arc; the shorter ones are mostly dearer.
fn random_arc(random: &mut Random, nodes: u32) -> TimedArc
    requires { 1 ≤ nodes }
{
    let more = random.below(5);
    TimedArc {
        tail: random.node(nodes),
        head: random.node(nodes),
        minutes: 5 - more,
        cost: random.below(4) * (more + 1),
        closed: random.below(LISTS as u64) as u32,
    }
}

// Arcs, of which a quarter are equal to the one before; all after the first ones are equal.
fn random_arcs(random: &mut Random, nodes: u32, count: usize) -> [TimedArc; MOST_ARCS]
    requires { 1 ≤ nodes }
{
    let mut arcs = [NO_ARC; MOST_ARCS];
    for k in 0..count.min(MOST_ARCS) {
        arcs[k] = if 0 < k && random.below(4) == 0 {
            arcs[k - 1]
        } else {
            random_arc(random, nodes)
        };
    }
    arcs
}

const NO_ARC: TimedArc = TimedArc {
    tail: NodeId(1),
    head: NodeId(1),
    minutes: 1,
    cost: 0,
    closed: 0,
};

// In each list up to four runs, which rise and don't touch, or are empty.
fn random_runs(random: &mut Random) -> [(u32, Run); MOST_RUNS] {
    let mut closed = [(0, Run { lo: 0, hi: 0 }); MOST_RUNS];
    for k in 0..MOST_RUNS {
        let lo = k as u64 % 4 * 10 + random.below(5) + 1;
        let hi = lo + random.below(5) + 1;
        if random.below(2) == 0 {
            closed[k] = (k as u32 / 4, Run { lo, hi });
        }
    }
    closed
}

// A park at half of the nodes, which is shut in the runs of one of the lists.
fn random_parks(random: &mut Random, nodes: u32) -> [Option<Park>; MOST_NODES] {
    let mut parks = [None; MOST_NODES];
    for v in 0..MOST_NODES.min(nodes as usize) {
        let park = Park {
            weight: random.below(4),
            shut: random.below(LISTS as u64) as u32,
        };
        if random.below(2) == 0 {
            parks[v] = Some(park);
        }
    }
    parks
}

// The number of pairs that both engines find in a random net; none if they don't agree, or the net isn't well-formed.
fn agreed_pairs(alloc: Global, random: &mut Random) -> Option<usize> {
    let case = random_case(random);
    match fronts_of(alloc, case.lists(), case.request) {
        Some(fronts) if fronts.agree() => Some(fronts.table.len()),
        _ => None,
    }
}

// 1 if there are at least this many pairs, otherwise 0.
fn count_with(least: usize, pairs: Option<usize>) -> u64 {
    match pairs {
        Some(pairs) if pairs >= least => 1,
        _ => 0,
    }
}

#[test]
fn agree_on_random_nets(rt: HostRuntime) -> Result<(), Fail> {
    println!(rt; "{NETS} random nets from the seed {SEED}")?;
    let mut random = Random { state: SEED };
    let mut with_pairs = 0u64;
    let mut with_several = 0u64;
    for net in 0..NETS {
        let pairs = agreed_pairs(rt.alloc(), &mut random);
        assert!(rt; pairs.is_some(), "net {net}");
        with_pairs = with_pairs.saturating_add(count_with(1, pairs));
        with_several = with_several.saturating_add(count_with(2, pairs));
    }
    println!(rt; "{with_pairs} of them with pairs, {with_several} with several")?;
    Ok(())
}
