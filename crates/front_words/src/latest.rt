// `latest DIR VEHICLE FROM TO DEPART UNTIL`
ghost use Rattle.front_words.specs.Found.{IsFound, latest_row};

use crate::found::folder_at;
use crate::trip_words::trip_found;
use crate::{Invocation, Trip, WordsFault};
use clap::ArgMatches;
use route_base::Text;
use std::alloc::Global;

/// Finds the latest departures of a trip over the files of the folder `dir`: none before `depart`, each arriving by `until`.
#[derive(Drop)]
pub struct Latest {
    pub dir: Text,
    pub trip: Trip,
}

// The command that the words make which `clap` found.
pub fn latest_found(alloc: Global, matches: &ArgMatches) -> Result<Invocation, WordsFault>
    ensures { IsFound matches.now latest_row result }
{
    Ok(Invocation::Latest(Latest {
        dir: folder_at(alloc, matches, "dir")?,
        trip: trip_found(alloc, matches)?,
    }))
}
