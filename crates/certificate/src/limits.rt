//! The number that bounds a certificate's text beside those of `route_base::limits` and the highest cost of a piece.

/// The most minutes of a node's bounds.
pub const LONGEST_BOUND: u64 = 10_000_000_000;
