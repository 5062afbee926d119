// `explain DIR VEHICLE FROM TO DEPART UNTIL ITINERARY`
ghost use Rattle.front_words.specs.Found.{IsFound, explain_row};

use crate::found::{file_at, folder_at};
use crate::trip_words::trip_found;
use crate::{Invocation, Trip, WordsFault};
use clap::ArgMatches;
use route_base::Text;
use std::alloc::Global;

/// Says what is wrong with the itinerary of the file `itinerary`, for a trip over the files of the folder `dir`, or which pair is better.
#[derive(Drop)]
pub struct Explain {
    pub dir: Text,
    pub trip: Trip,
    pub itinerary: Text,
}

// The command that the words make which `clap` found.
pub fn explain_found(alloc: Global, matches: &ArgMatches) -> Result<Invocation, WordsFault>
    ensures { IsFound matches.now explain_row result }
{
    Ok(Invocation::Explain(Explain {
        dir: folder_at(alloc, matches, "dir")?,
        trip: trip_found(alloc, matches)?,
        itinerary: file_at(alloc, matches, "name")?,
    }))
}
