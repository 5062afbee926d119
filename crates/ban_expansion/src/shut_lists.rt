// The minutes at which one may not wait: at an instant, and of a window for all timetables of a network.
ghost use Rattle.std.specs.Prelude.{◌≡◌, ◌≤◌, ◌<◌, ◌+◌, ◌^◌, All, IfOk, IfSome, length, map, not, option_map};
ghost use Rattle.ban_expansion.specs.Words.{any_has, AreRuns, HasThose, IsInstant, IsWindow, area_at};
ghost use Rattle.ban_expansion.specs.Words.{AreShutLists, AreParks, HasTimetable, IsTimedIn};
ghost use Rattle.ban_expansion.specs.Words.{is_open_by, is_park_open, park_of, park_over};

use covered_minutes::covered_minutes;
use minute_sets::MinuteSet;
use network_tables::{Network, Parks, RatedNode, is_wait_open};
use opening_hours::Hours;
use route_base::{Minute, NodeId, OutOfMemory, Park, Run};
use std::alloc::Global;

/// Whether the node is rated and waiting there is open at the instant: it has no hours, or they cover what the clocks of its row's
/// area show. The clock is read in time logarithmic in the zone's rows, and `covers` is linear in the rules of the hours. It takes no
/// memory.
/// For other callers: the program has the minutes of a whole window at once, by `expand_groups`.
pub fn wait_open_at(network: &Network, v: NodeId, t: Minute) -> bool
    requires { IsInstant t }
    ensures { result ≡ is_park_open network.now (park_of network.now v.0) t }
{
    is_wait_open(network, v, t)
}

// The minutes of the window at which the hours, if there are any, don't cover the clocks of the area.
fn shut_set(
    alloc: Global,
    network: &Network,
    area: usize,
    hours: Option<&Hours>,
    window: Run,
) -> Result<MinuteSet, OutOfMemory>
    requires area { area < length network.now.areas }
    requires window { IsWindow window }
    ensures { IfOk result (HasThose window (λ t. not (is_open_by
        (option_map (λ h. h.now) hours.entry) (area_at network.now area) t))) }
{
    match hours {
        None => Ok(MinuteSet::empty(alloc)),
        Some(hours) => {
            let zone = network.zone_of(area);
            let open = covered_minutes(alloc, hours, zone, network.holidays_of(area), window)?;
            open.complement(alloc, window)
        }
    }
}

/// For each timetable the minutes of the window at which waiting isn't open, in the time and memory of one `covered_minutes` each;
/// timetables without hours take no memory.
pub fn shut_lists(
    alloc: Global,
    network: &Network,
    parks: &Parks,
    window: Run,
) -> Result<Vec<Vec<Run>>, OutOfMemory>
    requires placed { All (IsTimedIn (length network.now.areas)) parks.now.timetables }
    requires window { IsWindow window }
    ensures { IfOk result (λ lists. AreShutLists network.now window parks.now.timetables
        (map (λ v. v.items) lists.items)) }
{
    let mut lists = Vec::with_capacity(alloc, parks.timetable_count())?;
    for k in 0..parks.timetable_count() {
        let set = shut_set(alloc, network, parks.area(k), parks.hours(k), window)?;
        lists.push(set.into_runs())?;
    }
    Ok(lists)
}

// The park of a rated node, where the shut runs of its timetable stand behind `first` other lists.
fn park_at(node: Option<RatedNode>, first: u32) -> Option<Park>
    requires { IfSome node (λ n. first + n.timetable < 2 ^ 32) }
    ensures { result ≡ option_map (park_over first) node }
{
    match node {
        Some(node) => Some(Park {
            weight: node.weight,
            shut: first + node.timetable as u32,
        }),
        None => None,
    }
}

/// The park of each node where one may wait, where the shut runs of the timetables stand behind `first` other lists.
pub fn parks_at(
    alloc: Global,
    parks: &Parks,
    nodes: u32,
    first: u32,
) -> Result<Vec<Option<Park>>, OutOfMemory>
    requires nodes { nodes + 1 < 2 ^ 32 }
    requires few { first + length parks.now.timetables ≤ 2 ^ 32 }
    ensures { IfOk result (λ held. AreParks parks.now first nodes held.items) }
{
    let mut held = Vec::with_capacity(alloc, nodes as usize)?;
    for v in 0..nodes {
        held.push(park_at(parks.rated(NodeId(v + 1)), first))?;
    }
    Ok(held)
}
