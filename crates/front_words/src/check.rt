// `check DIR VEHICLE FROM TO DEPART UNTIL NAME`
ghost use Rattle.front_words.specs.Found.{IsFound, check_row};

use crate::found::{certificate_at, folder_at};
use crate::trip_words::trip_found;
use crate::{Invocation, Trip, WordsFault};
use clap::ArgMatches;
use route_base::Text;
use std::alloc::Global;

/// Judges the certificate `name` for a trip over the files of the folder `dir`.
#[derive(Drop)]
pub struct Check {
    pub dir: Text,
    pub trip: Trip,
    pub name: Text,
}

// The command that the words make which `clap` found.
pub fn check_found(alloc: Global, matches: &ArgMatches) -> Result<Invocation, WordsFault>
    ensures { IsFound matches.now check_row result }
{
    Ok(Invocation::Check(Check {
        dir: folder_at(alloc, matches, "dir")?,
        trip: trip_found(alloc, matches)?,
        name: certificate_at(alloc, matches, "name")?,
    }))
}
