// The rule that decides an arc's access at an instant, and for how long it does.
ghost use Rattle.std.specs.Prelude.{◌≡◌, ◌≤◌, ◌<◌, length, option_map, option_and_then};
ghost use Rattle.route_base.specs.Time.{IsInstant};
ghost use Rattle.conditional_rules.specs.Decisions.{deciding_place, last_given};
ghost use Rattle.vehicle_classes.specs.Classes.{keys_of};
ghost use Rattle.network_tables.specs.Access.{area_at, places_of_key};
ghost use Rattle.road_access.specs.Inside.{PlacesSteadily};
ghost use Rattle.road_access.specs.Rulings.{plain_ruling, clause_ruling, ruling_at, ruling_given};
ghost use Rattle.road_access.specs.Steadiness.{RuleSteadily};

use crate::steady_clauses::value_steady;
use conditional_rules::{Access, Conditional, deciding};
use network_tables::Network;
use opening_hours::Holidays;
use route_base::{ArcId, Minute};
use vehicle_classes::{Key, Vehicle, chain_at};
use zone_rules::Wall;

/// The rule that decides an arc's access: whether it is the arc's own or its area's, its key, its kind, its clause counted from 1 (a
/// plain value has one), and the access that it gives.
#[derive(Clone, Copy)]
pub struct Ruling {
    pub of_arc: bool,
    pub key: Key,
    pub conditional: bool,
    pub clause: u64,
    pub access: Access,
}

/// The rule that decides at an instant, if one does, and a number of minutes from it on at which the same one does, or none.
#[derive(Clone, Copy)]
pub struct SteadyRuling {
    pub ruling: Option<Ruling>,
    pub minutes: u32,
}

// The ruling of a plain value, if there is one.
fn plain(access: Option<Access>, of_arc: bool, key: Key) -> Option<Ruling>
    ensures { result ≡ option_map (plain_ruling of_arc key) access }
{
    match access {
        Some(access) => Some(Ruling {
            of_arc,
            key,
            conditional: false,
            clause: 1,
            access,
        }),
        None => None,
    }
}

// The ruling of the clause at a place.
fn by_clause(conditional: &Conditional, of_arc: bool, key: Key, place: usize) -> Option<Ruling>
    requires { place < length conditional.now }
    ensures { result ≡ clause_ruling of_arc key conditional.now place }
{
    let count = conditional.len();
    prove!(place < count);
    let number = place as u64 + 1;
    conditional.get(place).map(|clause| Ruling {
        of_arc,
        key,
        conditional: true,
        clause: number,
        access: clause.access,
    })
}

// The ruling of a conditional value, if there is one, when clocks show this.
fn decided(
    conditional: Option<&Conditional>,
    of_arc: bool,
    key: Key,
    vehicle: &Vehicle,
    wall: Wall,
    holidays: &Holidays,
) -> Option<Ruling>
    requires from { 7 ≤ wall.day }
    requires to { wall.day ≤ 84370 }
    requires minute { wall.minute < 1440 }
    ensures { result ≡ option_and_then
        (λ clauses. option_and_then (clause_ruling of_arc key clauses)
        (deciding_place vehicle.now holidays.now wall.day wall.minute clauses))
        (option_map (λ c. c.now) conditional.entry) }
{
    let conditional = conditional?;
    let place = deciding(conditional, vehicle, wall.day, wall.minute, holidays)?;
    by_clause(conditional, of_arc, key, place)
}

// The ruling of the last place of a key, of those that give one, and the minutes from t on, at most `most`, at which it is the same.
fn key_ruling(
    network: &Network,
    vehicle: &Vehicle,
    area: usize,
    a: ArcId,
    key: Key,
    t: Minute,
    most: u32,
) -> SteadyRuling
    requires area { area < length network.now.areas }
    requires instant { IsInstant t }
    requires room { 1 ≤ most }
    ensures ruling { result.ruling
        ≡ last_given (ruling_at network.now (area_at network.now area) vehicle.now t)
        (places_of_key area a.0 key) }
    ensures some { 1 ≤ result.minutes }
    ensures most { result.minutes ≤ most }
    ensures same { PlacesSteadily network.now (area_at network.now area) vehicle.now t
        (places_of_key area a.0 key) result.minutes }
{
    let wall = network.zone_of(area).wall(t);
    let holidays = network.holidays_of(area);
    let special = network.arc_conditional(a, key);
    let general = network.area_conditional(area, key);
    let ruling = decided(special, true, key, vehicle, wall, holidays)
        .or(plain(network.arc_plain(a, key), true, key))
        .or(decided(general, false, key, vehicle, wall, holidays))
        .or(plain(network.area_plain(area, key), false, key));
    let minutes = value_steady(general, wall.minute, most);
    SteadyRuling {
        ruling,
        minutes: value_steady(special, wall.minute, minutes),
    }
}

/// The ruling of the last place of all, of those that give one; and how many minutes from the instant on, at most `most`, of the
/// local day the same rule decides, or none: one at least, and no hours of the rules begin or end among them.
///
/// For each key of the vehicle's class it reads the clock in the arc's zone, which is logarithmic in the zone's rows, and decides two
/// conditional values. Where `most` is 2 or more it is linear in their parts and the rules of their hours, too. It takes no memory.
pub fn arc_ruling(
    network: &Network,
    vehicle: &Vehicle,
    a: ArcId,
    t: Minute,
    most: u32,
) -> SteadyRuling
    requires low { 1 ≤ a.0 }
    requires high { a.0 ≤ length network.now.graph.arcs }
    requires instant { IsInstant t }
    requires room { 1 ≤ most }
    ensures ruling { result.ruling
        ≡ ruling_given network.now vehicle.now a.0 t (keys_of vehicle.now.class) }
    ensures some { 1 ≤ result.minutes }
    ensures most { result.minutes ≤ most }
    ensures same { RuleSteadily network.now vehicle.now a.0 t (keys_of vehicle.now.class)
        result.minutes }
{
    let area = network.area_of(a);
    let mut ruling: Option<Ruling> = None;
    let mut minutes = most;
    let mut k: usize = 0;
    'keys: while let Some(key) = chain_at(vehicle.class(), k) {
        let here = key_ruling(network, vehicle, area, a, key, t, minutes);
        ruling = here.ruling.or(ruling);
        minutes = here.minutes;
        k += 1;
    }
    SteadyRuling { ruling, minutes }
}
