// The words of a trip, `VEHICLE FROM TO DEPART UNTIL` after the folder's, in all commands that have them.
ghost use Rattle.std.specs.Prelude.{IfOk};
ghost use Rattle.front_words.specs.ClapCommands.{trip_places, values_at};
ghost use Rattle.front_words.specs.Trips.{IsTimed, trip_forms};
ghost use Rattle.front_words.specs.Inside.{IsAnswerWith, trip_values};

use crate::found::{instant_at, number_at, vehicle_at};
use crate::{Trip, WordsFault};
use clap::ArgMatches;
use std::alloc::Global;

// The positional words of a command that has a folder and a trip alone, by the names that `clap` has for them.
pub const TRIP_PLACES: &[&str] = &["dir", "vehicle", "from", "to", "depart", "until"];

// The same of a command that has a name after them.
pub const NAMED_TRIP_PLACES: &[&str] = &["dir", "vehicle", "from", "to", "depart", "until", "name"];

// The trip that the words say.
pub fn trip_found(alloc: Global, matches: &ArgMatches) -> Result<Trip, WordsFault>
    ensures values { IsAnswerWith trip_values
        (values_at matches.now trip_places trip_forms) result }
    ensures timed { IfOk result IsTimed }
{
    Ok(Trip {
        vehicle: vehicle_at(alloc, matches, "vehicle")?,
        origin: number_at(matches, "from")?,
        goal: number_at(matches, "to")?,
        depart: instant_at(matches, "depart")?,
        until: instant_at(matches, "until")?,
    })
}
