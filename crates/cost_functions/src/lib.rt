//! Cost functions: the cost of a node as a piecewise linear function of the arrival minute.
//!
//! The law is in `specs/`. A piece is a line over some minutes that does not fall (`IsPiece`, `line_at` in `Lines`). A function is
//! a list of pieces that rise and do not overlap (`ArePieces` in `Pieces`); its value at a minute is that of the piece that has
//! the minute, and it has none elsewhere (`value_at`). It is reduced where no two pieces that touch are on one line (`IsReduced`),
//! and small where no value is above `HIGHEST_COST` (`AreSmallPieces`). Each call that makes a function says of every minute which
//! value it has, or that it has none.
//!
//! A `Builder` makes functions from the left: `push` adds a piece behind the others, or joins it with the last. So what is built
//! is always reduced and small, which is one word, `AreBuilt` in `Building`, and a clause `built` of all calls that make a
//! function, here and above. `IsSettled` says how far a function is built already: the loops of `function_merge` keep it.
//!
//! `lookup` finds a value by a binary search, `points` makes pieces of points, `reduction` joins what is on one line,
//! and `crossing` tells where two lines cross. `specs/Inside` is no law: it says what joining two pieces keeps.
#![tactic(auto)]

mod builder;
mod cost_fn;
mod crossing;
mod lookup;
mod pieces;
mod points;
mod reduction;
mod threads;

pub use builder::Builder;
pub use cost_fn::CostFn;
pub use crossing::held_for;
pub use pieces::Piece;

/// The highest cost at the first minute of a piece, in thousandths.
pub const HIGHEST_PIECE_COST: u64 = 10_000_000_000_000;
