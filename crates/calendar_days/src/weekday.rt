// The seven days of the week.
ghost use Rattle.std.specs.Prelude.{◌≡◌};
ghost use Rattle.calendar_days.specs.Weekdays.{index_of, days_forward};

/// A day of the week, in the notation of OpenStreetMap's opening hours.
#[derive(Clone, Copy, Debug, PartialEq, Eq)]
pub enum Weekday {
    Mo,
    Tu,
    We,
    Th,
    Fr,
    Sa,
    Su,
}

impl Weekday {
    /// The weekday's place in the week: Monday is 0 and Sunday is 6. In constant time.
    pub fn index(self) -> u32
        ensures { result ≡ index_of self }
    {
        match self {
            Weekday::Mo => 0,
            Weekday::Tu => 1,
            Weekday::We => 2,
            Weekday::Th => 3,
            Weekday::Fr => 4,
            Weekday::Sa => 5,
            Weekday::Su => 6,
        }
    }

    /// The days from this weekday forward to another, 0 to 6. In constant time.
    pub fn days_to(self, other: Weekday) -> u32
        ensures { result ≡ days_forward self other }
    {
        let from = self.index() % 7;
        let to = other.index() % 7;
        (to + 7 - from) % 7
    }
}
