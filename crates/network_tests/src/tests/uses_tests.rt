// The callers of the libraries: one worked case for each.
ghost use Rattle.route_base.specs.Time.{IsInstant};

mod callers;
mod judgements;
mod plans;

use conditional_rules::{Access, ConditionalFault};
use opening_hours::{Holidays, HoursFault};
use route_base::{Cause, Minute, TableFault};
use std::alloc::Global;
use table_reader::NameIndex;
use uses::{Codes, access_given, clock_shows, is_banned, read_lockers};
use vehicle_classes::Vehicle;
use zone_rules::{Wall, Zone, ZoneRow};

// A zone that is always two hours ahead of UTC.
const TWO_HOURS_AHEAD: [ZoneRow; 1] = [ZoneRow {
    start: 525_600,
    offset: 120,
}];

// Whether a ban with these hours holds in that zone at a minute, where there are no holidays.
fn is_banned_at(alloc: Global, hours: &[u8], minute: Minute) -> Result<bool, HoursFault>
    requires { IsInstant minute }
{
    let Ok(zone) = Zone::from_rows(alloc, &TWO_HOURS_AHEAD) else {
        return Err(HoursFault::OutOfMemory);
    };
    let none = Holidays::from_days(Vec::new(alloc), Vec::new(alloc));
    is_banned(alloc, hours, &zone, &none, minute)
}

#[test]
fn bans_trucks_on_sundays_in_local_time(rt: HostRuntime) {
    // 2020-07-04T20:00Z is Saturday 22:00 in this zone, when the ban begins.
    for (minute, banned) in [
        (26_564_879, false),
        (26_564_880, true),
        (26_566_319, true),
        (26_566_320, false),
    ] {
        let answer = is_banned_at(rt.alloc(), b"Sa 22:00-Su 22:00", minute);
        assert!(rt; answer == Ok(banned), "at {minute}");
    }
    let fault = is_banned_at(rt.alloc(), b"Sa 25:00", 26_564_880);
    assert!(rt; fault == Err(HoursFault::NotHours));
}

// The access that a value gives any vehicle in that zone at a minute, where there are no holidays.
fn given_at(alloc: Global, value: &[u8], minute: Minute) -> Result<Option<Access>, ConditionalFault>
    requires { IsInstant minute }
{
    let Ok(zone) = Zone::from_rows(alloc, &TWO_HOURS_AHEAD) else {
        return Err(ConditionalFault::OutOfMemory);
    };
    let none = Holidays::from_days(Vec::new(alloc), Vec::new(alloc));
    access_given(alloc, value, &Vehicle::any(alloc), &zone, &none, minute)
}

#[test]
fn gives_the_access_of_a_rule_in_local_time(rt: HostRuntime) {
    for (minute, due) in [(26_564_879, None), (26_564_880, Some(Access::Barred))] {
        let given = given_at(rt.alloc(), b"no @ (Sa 22:00-Su 22:00)", minute);
        assert!(rt; given == Ok(due), "at {minute}");
    }
    let fault = given_at(rt.alloc(), b"no @ Saturday", 26_564_880);
    assert!(rt; fault == Err(ConditionalFault::NotConditional));
}

#[test]
fn shows_local_time(rt: HostRuntime) {
    // 2020-07-04T23:00Z is 01:00 on the next day.
    let wall = Wall {
        day: 18_448,
        minute: 60,
    };
    assert!(rt; clock_shows(rt.alloc(), &TWO_HOURS_AHEAD, 26_565_060) == Ok(wall));
}

// The codes of three lockers, of which the second one is red, by these codes of colours.
fn codes_of(alloc: Global, colours: &[(&str, u64)]) -> Result<Vec<Option<u64>>, TableFault> {
    let mut by_name = NameIndex::new(alloc);
    for (colour, code) in colours {
        if by_name.add(alloc, colour.as_bytes(), *code).is_err() {
            return Err(TableFault::OutOfMemory);
        }
    }
    read_lockers(alloc, b"locker,colour\n2,red\n", 3, Codes { by_name })
}

#[test]
fn reads_codes_of_lockers(rt: HostRuntime) {
    let codes = codes_of(rt.alloc(), &[("red", 7)]).expect(&rt, "codes");
    assert!(rt; codes.as_slice() == [None, Some(7), None].as_slice());
    let unknown = TableFault::BadRow {
        row: 2,
        cause: Cause::Unknown,
    };
    assert!(rt; codes_of(rt.alloc(), &[]).err() == Some(unknown));
}
