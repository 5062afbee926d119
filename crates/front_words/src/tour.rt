// `tour DIR VEHICLE FROM TO DEPART UNTIL STOPS [--drive B] [--rest L]`
ghost use Rattle.std.specs.Prelude.{◌≡◌, IfOk, IfSome};
ghost use Rattle.front_words.specs.ClapCommands.{check_places, values_at};
ghost use Rattle.front_words.specs.Commands.{AsksSupported, IsTimed, tour_usage, to_rested_tour};
ghost use Rattle.front_words.specs.Found.{IsFound, tour_row};
ghost use Rattle.front_words.specs.Inside.{IsAnswerWith, IsUpTo, tour_values};
ghost use Rattle.front_words.specs.Tour.{tour_under as under};
ghost use Rattle.route_base.specs.declared.limits.TheConstants.{DAY_MINUTES};

use crate::found::{count_if, file_at, folder_at};
use crate::limits::{USUAL_DRIVE, USUAL_REST};
use crate::trip_words::trip_found;
use crate::{Invocation, Trip, WordsFault};
use clap::ArgMatches;
use route_base::Text;
use route_base::limits::DAY_MINUTES;
use std::alloc::Global;

/// Plans a trip that serves each stop of the file `stops` over the files of the folder `dir`.
#[derive(Drop)]
pub struct Tour {
    pub dir: Text,
    pub trip: Trip,
    pub stops: Text,
}

/// Plans a tour under a break rule: at most `drive` minutes of driving since the last unbroken wait of `rest` minutes.
#[derive(Drop)]
pub struct RestedTour {
    pub tour: Tour,
    pub drive: u64,
    pub rest: u64,
}

// The command that the words make which `clap` found: a tour under a rule if one of its numbers is given.
pub fn tour_found(alloc: Global, matches: &ArgMatches) -> Result<Invocation, WordsFault>
    ensures { IsFound matches.now tour_row result }
{
    let tour = places_found(alloc, matches)?;
    let drive = count_if(matches, "drive", DAY_MINUTES)?;
    let rest = count_if(matches, "rest", DAY_MINUTES)?;
    Ok(tour_under(tour, drive, rest))
}

// The tour that the positional words say.
fn places_found(alloc: Global, matches: &ArgMatches) -> Result<Tour, WordsFault>
    ensures values { IsAnswerWith tour_values
        (values_at matches.now check_places tour_usage.places) result }
    ensures timed { IfOk result (λ tour. IsTimed tour.trip) }
{
    Ok(Tour {
        dir: folder_at(alloc, matches, "dir")?,
        trip: trip_found(alloc, matches)?,
        stops: file_at(alloc, matches, "name")?,
    })
}

// The tour by itself, or under a rule if one of its numbers is given; the other is then the usual one.
fn tour_under(tour: Tour, drive: Option<u64>, rest: Option<u64>) -> Invocation
    requires drive { IfSome drive (IsUpTo DAY_MINUTES) }
    requires rest { IfSome rest (IsUpTo DAY_MINUTES) }
    requires timed { IsTimed tour.trip }
    ensures made { result ≡ under tour drive rest }
    ensures supported { AsksSupported result }
{
    match (drive, rest) {
        (None, None) => Invocation::Tour(tour),
        (Some(drive), None) => ruled(tour, drive, USUAL_REST),
        (None, Some(rest)) => ruled(tour, USUAL_DRIVE, rest),
        (Some(drive), Some(rest)) => ruled(tour, drive, rest),
    }
}

// The tour under a rule.
fn ruled(tour: Tour, drive: u64, rest: u64) -> Invocation
    ensures { result ≡ to_rested_tour (record {
      tour = tour;
      drive = drive;
      rest = rest;
    }) }
{
    Invocation::RestedTour(RestedTour { tour, drive, rest })
}
