//! The numbers that bound a request, each once for all crates. `docs/LIMITS.md` says what happens beyond each.
use crate::{Cost, Minute};

/// The first instant: 1971-01-01T00:00Z as a Unix minute.
pub const FIRST_INSTANT: Minute = 525_600;

/// The last instant: 2199-12-31T23:59Z as a Unix minute.
pub const LAST_INSTANT: Minute = 120_968_639;

/// The minutes of a day.
pub const DAY_MINUTES: Minute = 1_440;

/// The last day, 2200-12-31, in days since 1970-01-01.
pub const LAST_DAY: u32 = 84_370;

/// The most minutes of an arc: a week.
pub const LONGEST_DRIVE: u64 = 10_080;

/// The most minutes from the departure to the last arrival: 60 days.
pub const LONGEST_HORIZON: Minute = 86_400;

/// The cost of a minute of driving, in thousandths.
pub const COST_OF_MINUTE: Cost = 1_000;

/// The highest weight of a node, in thousandths a minute of waiting.
pub const HEAVIEST_WEIGHT: Cost = 100_000;

/// The highest toll of an arc, in thousandths.
pub const HIGHEST_TOLL: Cost = 100_000;

/// The most that each minute of an arc may cost, so that the costs of every request fit, in thousandths.
pub const DEAREST_MINUTE: Cost = 110_000;

/// The highest cost of an arc, and of every lawful itinerary that a search goes through, in thousandths.
pub const HIGHEST_COST: Cost = 10_000_000_000;

/// The most nodes of a graph file.
pub const MOST_NODES: u32 = 500_000;

/// The most arcs of a graph file.
pub const MOST_ARCS: u32 = 1_000_000;

/// The most nodes of a net in memory, which may be larger than a graph file's.
pub const MOST_NET_NODES: u32 = 40_000_000;

/// The most data rows of `zones.csv`.
pub const MOST_ZONE_ROWS: u32 = 10_000;

/// The most areas.
pub const MOST_AREAS: u32 = 1_000;

/// The most data rows of `roads.csv`.
pub const MOST_ROAD_ROWS: u32 = 1_000_000;

/// The most vehicles of `vehicles.csv`.
pub const MOST_VEHICLES: u32 = 10_000;

/// The most data rows of `rules.csv`.
pub const MOST_RULES: u32 = 20_000;

/// The most data rows of `closures.csv`.
pub const MOST_CLOSURES: u32 = 100_000;

/// The most ratings.
pub const MOST_RATINGS: u32 = 1_000;

/// The most data rows of `parking.csv`.
pub const MOST_PARKING_ROWS: u32 = 500_000;

/// The most data rows of `holidays.csv`.
pub const MOST_HOLIDAYS: u32 = 100_000;

/// The most data rows of `tolls.csv`.
pub const MOST_TOLLS: u32 = 1_000_000;

/// The largest size of a vehicle, in kilograms, centimetres or axles.
pub const LARGEST_SIZE: u32 = 1_000_000;

/// The most bytes of a rule's value.
pub const LONGEST_RULE: usize = 65_536;

/// The most bytes of a name in a table.
pub const LONGEST_NAME: usize = 64;

/// The most bytes of a folder's name.
pub const LONGEST_FOLDER: usize = 4_096;

/// The most bytes of a network's file, and of a jobs file.
pub const LONGEST_FILE: u64 = 268_435_456;

/// The most bytes of a certificate's file.
pub const LONGEST_CERTIFICATE: u64 = 4_398_046_511_104;
