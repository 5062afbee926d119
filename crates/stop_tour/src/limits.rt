// The size of a table of stops.

/// The most data rows of a table of stops.
pub const MOST_STOPS: u32 = 50;
