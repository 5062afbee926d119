// The size of nets that are built from others.

/// The most states of a net that is built from another one, as each request counts them.
pub const MOST_STATES: u32 = 40_000_000;
