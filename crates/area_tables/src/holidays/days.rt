// An area's holidays while the table is being read.
ghost use Rattle.std.specs.Prelude.{◌≡◌, ◌≤◌, ◌∷◌, ◌++◌, [], All, OnOk, if◌then◌else◌};
ghost use Rattle.std.specs.List.Sorted.{IsStrictlyIncreasing};
ghost use Rattle.route_base.specs.declared.limits.TheConstants.{LAST_DAY};
ghost use Rattle.area_tables.specs.Holidays.{is_kind, days_listed, in_calendar};
ghost use Rattle.area_tables.specs.declared.holidays.row.HolidayKind.TheVariants.{Public, School};

use super::row::{Holiday, HolidayKind};
use opening_hours::Holidays;
use std::alloc::{AllocFailed, Global};
use std::marker::Model;

/// Days of public and of school holidays in the order of their rows, maybe repeated. Contracts see two lists.
pub struct AreaDays {
    public: Vec<u32>,
    school: Vec<u32>,
}

impl Model for AreaDays {
    ghost use Rattle.std.specs.Prelude.{◌≤◌, All};
    ghost use Rattle.route_base.specs.declared.limits.TheConstants.{LAST_DAY};
    ghost use Rattle.opening_hours.specs.Holidays.{HolidayLists};

    ghost Value = { HolidayLists };

    ghost view = { λ a. record { public = a.public.items; school = a.school.items } };

    ghost invariant = { λ a. All (λ day. day ≤ LAST_DAY) a.public.items × All (λ day. day ≤ LAST_DAY) a.school.items };
}

// By hand, so that the drops of its parts are proved here alone.
impl Drop for AreaDays {
    fn drop(self) {
        let Self { public, school } = self;
    }
}

// The days in their order, each once.
fn in_order(mut days: Vec<u32>) -> Vec<u32>
    requires { All (λ day. day ≤ LAST_DAY) days.items }
    ensures value { result.items ≡ days_listed days.items }
    ensures rising { IsStrictlyIncreasing result.items }
{
    days.sort_unstable();
    days.dedup();
    days
}

impl AreaDays {
    /// No days yet.
    pub fn new(alloc: Global) -> Self
        ensures { result ≡ record { public = []; school = [] } }
    {
        AreaDays {
            public: Vec::new(alloc),
            school: Vec::new(alloc),
        }
    }

    /// Adds a day, in constant time on average.
    pub fn add(&mut self, holiday: Holiday) -> Result<(), AllocFailed<u32>>
        requires { holiday.day ≤ LAST_DAY }
        ensures public { OnOk result (self.new.public ≡
            self.old.public ++ (if is_kind Public holiday.kind then holiday.day ∷ [] else [])) }
        ensures school { OnOk result (self.new.school ≡
            self.old.school ++ (if is_kind School holiday.kind then holiday.day ∷ [] else [])) }
    {
        match holiday.kind {
            HolidayKind::Public => self.public.push(holiday.day),
            HolidayKind::School => self.school.push(holiday.day),
        }
    }

    /// The holidays on these days, in n log n steps for n days.
    pub fn into_holidays(self) -> Holidays
        ensures { result ≡ in_calendar self }
    {
        let AreaDays { public, school } = self;
        Holidays::from_days(in_order(public), in_order(school))
    }
}
