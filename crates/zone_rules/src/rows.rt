// A zone's rows, a wall clock's reading, and the faults of rows.
use route_base::Minute;
use std::alloc::AllocError;

/// A row of a zone: from minute `start` on, local time is UTC plus `offset` minutes.
#[derive(Clone, Copy, Debug, PartialEq, Eq)]
pub struct ZoneRow {
    pub start: Minute,
    pub offset: i64,
}

/// A local day, counted from 1970-01-01, and its minute from 0 to 1,439.
#[derive(Clone, Copy, Debug, PartialEq, Eq)]
pub struct Wall {
    pub day: u32,
    pub minute: u32,
}

/// The reason why rows are no zone, with the place of the row, counted from 0.
#[derive(Clone, Copy, Debug, PartialEq, Eq)]
pub enum ZoneFault {
    /// There are no rows.
    Empty,
    /// The offset isn't from -1,080 to 1,080 minutes.
    OffsetRange(usize),
    /// The start isn't above that of the row before.
    NotRising(usize),
    OutOfMemory,
}

impl From<AllocError> for ZoneFault {
    ghost use Rattle.std.specs.Prelude.{◌≡◌};
    ghost use Rattle.zone_rules.specs.declared.rows.ZoneFault.TheVariants.{OutOfMemory};

    ghost from_gives = { λ _ e. e ≡ OutOfMemory };

    fn from(_: AllocError) -> Self {
        ZoneFault::OutOfMemory
    }
}
