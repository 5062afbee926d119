// `plan DIR VEHICLE FROM TO DEPART UNTIL [--form F] [--certificate NAME]`
ghost use Rattle.front_words.specs.Found.{IsFound, plan_row};

use crate::found::{certificate_if, folder_at, report_or_plain};
use crate::trip_words::trip_found;
use crate::{Invocation, Trip, WordsFault};
use clap::ArgMatches;
use route_base::{Form, Text};
use std::alloc::Global;

/// Plans a trip over the files of the folder `dir`, reports it in a form, and writes a certificate into the folder if a name is given
/// for it.
#[derive(Drop)]
pub struct Plan {
    pub dir: Text,
    pub trip: Trip,
    pub form: Form,
    pub certificate: Option<Text>,
}

// The values of the options, by the names that `clap` has for them, and the options as words.
pub const PLAN_CHOICES: &[&str] = &["form", "certificate"];

pub const PLAN_OPTIONS: &[&str] = &["--form", "--certificate"];

// The command that the words make which `clap` found.
pub fn plan_found(alloc: Global, matches: &ArgMatches) -> Result<Invocation, WordsFault>
    ensures { IsFound matches.now plan_row result }
{
    Ok(Invocation::Plan(Plan {
        dir: folder_at(alloc, matches, "dir")?,
        trip: trip_found(alloc, matches)?,
        form: report_or_plain(matches, "form")?,
        certificate: certificate_if(alloc, matches, "certificate")?,
    }))
}
