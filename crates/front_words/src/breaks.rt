// `breaks DIR VEHICLE FROM TO DEPART UNTIL [--drive B] [--rest L]`
ghost use Rattle.front_words.specs.Found.{IsFound, breaks_row};

use crate::found::{count_or_usual, folder_at};
use crate::limits::{USUAL_DRIVE, USUAL_REST};
use crate::trip_words::trip_found;
use crate::{Invocation, Trip, WordsFault};
use clap::ArgMatches;
use route_base::Text;
use route_base::limits::DAY_MINUTES;
use std::alloc::Global;

/// Plans a trip over the files of the folder `dir` under a break rule: at most `drive` minutes of driving since the last unbroken wait of
/// `rest` minutes.
#[derive(Drop)]
pub struct Breaks {
    pub dir: Text,
    pub trip: Trip,
    pub drive: u64,
    pub rest: u64,
}

// The values of the options of a break rule, by the names that `clap` has for them, and the options as words.
pub const RULE_CHOICES: &[&str] = &["drive", "rest"];

pub const RULE_OPTIONS: &[&str] = &["--drive", "--rest"];

// The command that the words make which `clap` found.
pub fn breaks_found(alloc: Global, matches: &ArgMatches) -> Result<Invocation, WordsFault>
    ensures { IsFound matches.now breaks_row result }
{
    Ok(Invocation::Breaks(Breaks {
        dir: folder_at(alloc, matches, "dir")?,
        trip: trip_found(alloc, matches)?,
        drive: count_or_usual(matches, "drive", DAY_MINUTES, USUAL_DRIVE)?,
        rest: count_or_usual(matches, "rest", DAY_MINUTES, USUAL_REST)?,
    }))
}
