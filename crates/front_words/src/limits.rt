//! The bounds and the usual values of the numbers that words say.

/// The most workers.
pub const MOST_WORKERS: u32 = 64;

/// How many workers plan a batch if the words don't say.
pub const USUAL_WORKERS: u32 = 4;

/// How many minutes may be driven without a break if the words don't say: those of Regulation (EC) 561/2006, Article 7.
pub const USUAL_DRIVE: u64 = 270;

/// How many minutes a break has if the words don't say: those of the same article.
pub const USUAL_REST: u64 = 45;
