// Why an arc is closed, and the first minute of a drive at which it is.
ghost use Rattle.std.specs.Prelude.{◌≡◌, ◌≤◌, ◌<◌, ◌+◌, None, true, false, ℕ, length};
ghost use Rattle.std.specs.Prelude.{IfSome, IfOk, OnOk, IfErr};
ghost use Rattle.route_base.specs.Open.{IsOpen};
ghost use Rattle.route_base.specs.Runs.{has_minute};
ghost use Rattle.route_base.specs.Time.{IsInstant, first_instant, last_instant};
ghost use Rattle.vehicle_classes.specs.Classes.{keys_of};
ghost use Rattle.zone_rules.specs.Zones.{wall_at};
ghost use Rattle.network_tables.specs.Access.{area_at, area_place, is_closed, is_let_in};
ghost use Rattle.network_tables.specs.NetworkModel.{closures_of};
ghost use Rattle.network_tables.specs.RoadSetting.{road_setting};
ghost use Rattle.road_access.specs.Steadiness.{RuleSteadily};
ghost use Rattle.trip_explain.specs.Inside.{IsBarredFirst, IsFirstWithin, LetsInAmid};
ghost use Rattle.trip_explain.specs.Reasons.{ClosesFirst, IsBarredBy, IsClosedBy};

use crate::explanation::Why;
use conditional_rules::lets_in;
use network_tables::Network;
use road_access::{arc_ruling, first_closure};
use route_base::{ArcId, Minute, Run};
use vehicle_classes::Vehicle;
use zone_rules::Wall;

// A closed minute, with the reason.
#[derive(Clone, Copy)]
pub struct Closing {
    pub minute: Minute,
    pub why: Why,
}

// Minutes of a local day.
#[derive(Clone, Copy)]
pub struct Quiet {
    pub day: u32,
    pub from: u32,
    pub to: u32,
}

// How many minutes from the instant on, at most `most`, of the local day the same rule lets the vehicle in, or the rule that doesn't.
fn let_in_from(
    network: &Network,
    vehicle: &Vehicle,
    a: ArcId,
    t: Minute,
    most: u32,
) -> Result<u32, Why>
    requires low { 1 ≤ a.0 }
    requires high { a.0 ≤ length network.now.graph.arcs }
    requires instant { IsInstant t }
    requires room { 1 ≤ most }
    ensures let_in { OnOk result (is_let_in network.now vehicle.now a.0 t ≡ true) }
    ensures most { IfOk result (λ count. count ≤ most) }
    ensures same { IfOk result (RuleSteadily network.now vehicle.now a.0 t
        (keys_of vehicle.now.class)) }
    ensures barred { IfErr result (IsBarredBy network.now vehicle.now a.0 t) }
{
    let steady = arc_ruling(network, vehicle, a, t, most);
    let Some(ruling) = steady.ruling else {
        return Ok(steady.minutes);
    };
    if lets_in(ruling.access, vehicle) {
        return Ok(steady.minutes);
    }
    Err(Why::Rule {
        of_arc: ruling.of_arc,
        key: ruling.key,
        conditional: ruling.conditional,
        clause: ruling.clause,
    })
}

// The reason why the arc is closed at the instant, if it is.
fn closing_at(network: &Network, vehicle: &Vehicle, a: ArcId, t: Minute) -> Option<Why>
    requires low { 1 ≤ a.0 }
    requires high { a.0 ≤ length network.now.graph.arcs }
    requires instant { IsInstant t }
    ensures some { IfSome result (IsClosedBy network.now vehicle.now a.0 t) }
    ensures none { result ≡ None → is_closed network.now vehicle.now a.0 t ≡ false }
{
    match let_in_from(network, vehicle, a, t, 1) {
        Err(why) => Some(why),
        Ok(_) => match first_closure(network, a, t) {
            Some(k) => Some(Why::Closure(k as u64 + 1)),
            None => None,
        },
    }
}

// The first minute from `from` on, before `end`, at which one of the arc's closures is; `end` where there is none.
fn first_in_closure(network: &Network, a: ArcId, from: Minute, end: Minute) -> Minute
    requires low { 1 ≤ a.0 }
    requires high { a.0 ≤ length network.now.graph.arcs }
    requires rising { from ≤ end }
    ensures { IsFirstWithin (closures_of network.now a.0) from end result }
{
    let mut first = end;
    for k in 0..network.closure_count(a) {
        first = earlier_in(network.closure(a, k), from, first);
    }
    first
}

// The first minute of the run from `from` on, before `first`; `first` where there is none.
fn earlier_in(run: Run, from: Minute, first: Minute) -> Minute
    requires rising { from ≤ first }
    ensures from { from ≤ result }
    ensures to { result ≤ first }
    ensures before { (u : ℕ) → from ≤ u → u < result → has_minute u run ≡ false }
    ensures here { result < first → has_minute result run ≡ true }
{
    let start = if run.lo < from { from } else { run.lo };
    if start < run.hi && start < first {
        start
    } else {
        first
    }
}

// The day and the minute that clocks in the arc's area show.
fn wall_of(network: &Network, a: ArcId, t: Minute) -> Wall
    requires low { 1 ≤ a.0 }
    requires high { a.0 ≤ length network.now.graph.arcs }
    requires instant { IsInstant t }
    ensures value { result ≡ wall_at (area_at network.now (area_place network.now a.0)).zone t }
    ensures minute { result.minute < 1440 }
{
    network.zone_of(network.area_of(a)).wall(t)
}

// Whether clocks that show this show one of the minutes.
fn is_amid(wall: Wall, quiet: Quiet) -> bool
    ensures day { result ≡ true → wall.day ≡ quiet.day }
    ensures from { result ≡ true → quiet.from ≤ wall.minute }
    ensures to { result ≡ true → wall.minute < quiet.to }
{
    wall.day == quiet.day && quiet.from <= wall.minute && wall.minute < quiet.to
}

// Looks at the first of the minutes that are left: minutes of a day at which the arc lets the vehicle in, or the rule that doesn't
// let it in. It decides the access anew only at a minute that isn't among the quiet ones.
fn after_minute(
    network: &Network,
    vehicle: &Vehicle,
    a: ArcId,
    t: Minute,
    left: u64,
    quiet: Quiet,
) -> Result<Quiet, Why>
    requires low { 1 ≤ a.0 }
    requires high { a.0 ≤ length network.now.graph.arcs }
    requires instant { IsInstant t }
    requires left { 1 ≤ left }
    requires quiet { LetsInAmid network.now vehicle.now a.0 quiet }
    ensures quiet { IfOk result (LetsInAmid network.now vehicle.now a.0) }
    ensures let_in { OnOk result (is_let_in network.now vehicle.now a.0 t ≡ true) }
    ensures barred { IfErr result (IsBarredBy network.now vehicle.now a.0 t) }
{
    let wall = wall_of(network, a, t);
    if is_amid(wall, quiet) {
        return Ok(quiet);
    }
    let most = left.min(1440) as u32;
    let count = let_in_from(network, vehicle, a, t, most)?;
    Ok(Quiet {
        day: wall.day,
        from: wall.minute,
        to: wall.minute + count,
    })
}

// The first minute from `from` on, before `end`, at which a rule doesn't let the vehicle in.
fn first_barring(
    network: &Network,
    vehicle: &Vehicle,
    a: ArcId,
    from: Minute,
    end: Minute,
) -> Option<Closing>
    requires low { 1 ≤ a.0 }
    requires high { a.0 ≤ length network.now.graph.arcs }
    requires instant { first_instant ≤ from }
    requires end { end ≤ last_instant }
    ensures some { IfSome result (λ c.
        IsBarredFirst network.now vehicle.now a.0 from end c.minute c.why) }
    ensures none { result ≡ None → (u : ℕ) → from ≤ u → u < end
        → is_let_in network.now vehicle.now a.0 u ≡ true }
{
    let mut quiet = Quiet {
        day: 0,
        from: 0,
        to: 0,
    };
    for t in from..end {
        match after_minute(network, vehicle, a, t, end - t, quiet) {
            Ok(next) => quiet = next,
            Err(why) => return Some(Closing { minute: t, why }),
        }
    }
    None
}

// The first closed minute of those from `from` on, as many as `minutes`, with the reason. It goes through the closures once, and
// up to the first closure decides the access at the minutes at which another rule may decide than before.
pub fn first_closing(
    network: &Network,
    vehicle: &Vehicle,
    a: ArcId,
    from: Minute,
    minutes: u64,
) -> Option<Closing>
    requires low { 1 ≤ a.0 }
    requires high { a.0 ≤ length network.now.graph.arcs }
    requires instant { first_instant ≤ from }
    requires end { from + minutes ≤ last_instant }
    ensures some { IfSome result (λ c.
        ClosesFirst network.now vehicle.now a.0 from c.minute c.why) }
    ensures within { IfSome result (λ c. c.minute < from + minutes) }
    ensures none { result ≡ None →
        IsOpen (road_setting network.now vehicle.now) a.0 from minutes }
{
    let end = from + minutes;
    let closure = first_in_closure(network, a, from, end);
    if let Some(closing) = first_barring(network, vehicle, a, from, closure) {
        return Some(closing);
    }
    if closure >= end {
        return None;
    }
    match closing_at(network, vehicle, a, closure) {
        Some(why) => Some(Closing {
            minute: closure,
            why,
        }),
        None => None,
    }
}
