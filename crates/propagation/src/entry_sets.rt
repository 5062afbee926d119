// The minutes at which drives can begin, made when they are first needed.
ghost use Rattle.std.specs.Prelude.{◌≡◌, ◌≤◌, ◌<◌, ℕ, IsTrue, [], All, length, IfOk, OnOk, slice_get, slice_index_or, unwrap_or, option_to_list};
ghost use Rattle.route_base.specs.Net.{Net};
ghost use Rattle.route_base.specs.Runs.{AreRuns};
ghost use Rattle.propagation.specs.Inside.EntrySets.{AreEntries, IsEntrySet, AreEntrySets, HasEntriesAt};

use minute_sets::MinuteSet;
use route_base::{Minute, OutOfMemory, Run, TimedNet};
use std::alloc::Global;

/// The minutes at which a drive of this length can begin.
#[derive(Drop)]
pub struct EntrySet {
    pub minutes: u64,
    pub set: MinuteSet,
}

/// For each list of closed runs of a net the sets that avoid it, by length.
#[derive(Drop)]
pub struct EntrySets {
    pub lists: Vec<Vec<EntrySet>>,
}

/// No sets.
pub fn no_entry_sets(alloc: Global) -> EntrySets
    ensures { result.lists.items ≡ [] }
{
    EntrySets {
        lists: Vec::new(alloc),
    }
}

/// The place of the set for drives of this length that end by the last minute and avoid the list of closed runs at a place of the net; it
/// is made if it isn't there.
#[inline(always)]
pub fn ready_set(
    alloc: Global,
    net: &TimedNet,
    until: Minute,
    sets: &mut EntrySets,
    list: usize,
    closed: &[Run],
    minutes: u64,
) -> Result<usize, OutOfMemory>
    requires some { 1 ≤ minutes }
    requires own { unwrap_or (slice_get net.now.closed list) [] ≡ closed.now }
    requires entries { AreEntrySets net.now until sets.old }
    ensures entries { OnOk result
        (AreEntrySets net.now until sets.new) }
    ensures list { OnOk result (list < length sets.new.lists.items) }
    ensures set { IfOk result
        (HasEntriesAt closed.now until minutes sets.new list) }
{
    make_room(alloc, sets, list)?;
    let place = place_of(alloc, &mut sets.lists[list], closed, until, minutes)?;
    Ok(place)
}

// Makes room for the sets that avoid the list of closed runs at this place.
#[inline(always)]
fn make_room(alloc: Global, sets: &mut EntrySets, list: usize) -> Result<(), OutOfMemory>
    ensures within { OnOk result (list < length sets.new.lists.items) }
    ensures kept { OnOk result ((net : Net) (until : ℕ) → AreEntrySets net until sets.old
        → AreEntrySets net until sets.new) }
{
    'lists: while sets.lists.len() <= list {
        sets.lists.push(Vec::new(alloc))?;
    }
    Ok(())
}

// The place of the set for drives of this length that avoid these runs, which is made if it isn't there.
#[inline(always)]
fn place_of(
    alloc: Global,
    list: &mut Vec<EntrySet>,
    closed: &[Run],
    until: Minute,
    minutes: u64,
) -> Result<usize, OutOfMemory>
    requires some { 1 ≤ minutes }
    requires made { All (IsEntrySet closed.now until) list.old.items }
    ensures made { OnOk result (All (IsEntrySet closed.now until) list.new.items) }
    ensures within { IfOk result (λ place. place < length list.new.items) }
    ensures minutes { IfOk result (λ place. (d : EntrySet)
        → (slice_index_or list.new.items place d).minutes ≡ minutes) }
{
    let place = list.partition_point(|made| made.minutes < minutes);
    if is_for(list, place, minutes) {
        return Ok(place);
    }
    room_for_first(alloc, list)?;
    let set = entries(alloc, closed, until, minutes)?;
    list.insert(place, EntrySet { minutes, set })?;
    Ok(place)
}

// Room for one set in a list without any. Mostly no other follows, and a list that grows by itself takes memory for four.
#[inline(always)]
fn room_for_first(alloc: Global, list: &mut Vec<EntrySet>) -> Result<(), OutOfMemory>
    ensures { OnOk result (list.new.items ≡ list.old.items) }
{
    if list.is_empty() {
        *list = Vec::with_capacity(alloc, 1)?;
    }
    Ok(())
}

// Whether the set at a place is one for drives of this length.
#[inline(always)]
fn is_for(list: &[EntrySet], place: usize, minutes: u64) -> bool
    ensures within { IsTrue result → place < length list.now }
    ensures minutes { IsTrue result → (d : EntrySet) → (slice_index_or list.now place d).minutes
        ≡ minutes }
{
    match list.get(place) {
        Some(made) => made.minutes == minutes,
        None => false,
    }
}

/// The minutes at which a drive of this length can begin where nothing is closed: those of one run, or none.
#[inline(always)]
pub fn open_starts(until: Minute, minutes: u64) -> Option<Run>
    requires { 1 ≤ minutes }
    ensures entries { AreEntries [] until minutes (option_to_list result) }
    ensures runs { AreRuns (option_to_list result) }
{
    if until < minutes {
        return None;
    }
    Some(Run {
        lo: 0,
        hi: until - minutes + 1,
    })
}

// The minutes at which a drive can begin that avoids these runs.
fn entries(
    alloc: Global,
    closed: &[Run],
    until: Minute,
    minutes: u64,
) -> Result<MinuteSet, OutOfMemory>
    requires { 1 ≤ minutes }
    ensures { IfOk result (AreEntries closed.now until minutes) }
{
    let runs = MinuteSet::from_runs(alloc, closed)?;
    let window = Run { lo: 0, hi: until };
    runs.entries(alloc, window, minutes)
}
