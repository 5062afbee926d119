// Holidays: two rising lists of day numbers.
ghost use Rattle.std.specs.Prelude.{◌≡◌};
ghost use Rattle.std.specs.List.Sorted.{IsStrictlyIncreasing};
ghost use Rattle.opening_hours.specs.Holidays.{HolidayLists, is_listed};

use std::marker::Model;

/// The public holidays and the school holidays of an area, which contracts see as two lists of day numbers (days since
/// 1970-01-01).
pub struct Holidays {
    public: Vec<u32>,
    school: Vec<u32>,
}

impl Model for Holidays {
    ghost use Rattle.std.specs.List.Sorted.{IsStrictlyIncreasing};
    ghost use Rattle.opening_hours.specs.Holidays.{HolidayLists};

    ghost Value = { HolidayLists };

    ghost view = { λ a. record { public = a.public.items; school = a.school.items } };

    ghost invariant = { λ a. IsStrictlyIncreasing a.public.items × IsStrictlyIncreasing a.school.items };
}

// By hand, so that the drops of its parts are proved here alone.
impl Drop for Holidays {
    fn drop(self) {
        let Self { public, school } = self;
    }
}

// Whether a day is on a list, by binary search.
fn is_in(days: &[u32], day: u32) -> bool
    requires { IsStrictlyIncreasing days.now }
    ensures { result ≡ is_listed day days.now }
{
    days.binary_search(&day).is_ok()
}

impl Holidays {
    /// Holidays on these days, each list rising. It takes the lists over at no cost.
    pub fn from_days(public: Vec<u32>, school: Vec<u32>) -> Holidays
        requires public { IsStrictlyIncreasing public.items }
        requires school { IsStrictlyIncreasing school.items }
        ensures { result ≡ record { public = public.items; school = school.items } }
    {
        Holidays { public, school }
    }

    /// Whether the day is a public holiday. Logarithmic in their number; no memory.
    pub fn is_public(&self, day: u32) -> bool
        ensures { result ≡ is_listed day self.now.public }
    {
        is_in(self.public.as_slice(), day)
    }

    /// Whether the day is a school holiday. Logarithmic in their number; no memory.
    pub fn is_school(&self, day: u32) -> bool
        ensures { result ≡ is_listed day self.now.school }
    {
        is_in(self.school.as_slice(), day)
    }
}
