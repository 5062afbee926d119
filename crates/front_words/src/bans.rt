// `bans DIR VEHICLE ARC DEPART UNTIL`
ghost use Rattle.front_words.specs.Found.{IsFound, bans_row};

use crate::found::{folder_at, instant_at, number_at, vehicle_at};
use crate::{Invocation, WordsFault};
use clap::ArgMatches;
use route_base::{Minute, Text};
use std::alloc::Global;

/// Prints the minutes from `depart` up to, but not including, `until` at which an arc is closed to a vehicle, over the files of the folder
/// `dir`. Arcs are numbered from 1, and minutes are Unix minutes.
#[derive(Drop)]
pub struct Bans {
    pub dir: Text,
    pub vehicle: Text,
    pub arc: u32,
    pub depart: Minute,
    pub until: Minute,
}

// The positional words, by the names that `clap` has for them.
pub const BANS_PLACES: &[&str] = &["dir", "vehicle", "arc", "depart", "until"];

// The command that the words make which `clap` found.
pub fn bans_found(alloc: Global, matches: &ArgMatches) -> Result<Invocation, WordsFault>
    ensures { IsFound matches.now bans_row result }
{
    Ok(Invocation::Bans(Bans {
        dir: folder_at(alloc, matches, "dir")?,
        vehicle: vehicle_at(alloc, matches, "vehicle")?,
        arc: number_at(matches, "arc")?,
        depart: instant_at(matches, "depart")?,
        until: instant_at(matches, "until")?,
    }))
}
