//! The numbers that bound a drawn network.

/// The last number from which a network can be drawn.
pub const LAST_NUMBER: u64 = 2_147_483_646;

/// The most rows, and the most columns.
pub const MOST_LINES: u32 = 400;

/// The most nodes.
pub const MOST_GENERATED_NODES: u32 = 22_500;
