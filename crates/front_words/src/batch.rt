// `batch DIR JOBS [--workers N]`
ghost use Rattle.front_words.specs.Found.{IsFound, batch_row};

use crate::found::{file_at, folder_at, workers_or_usual};
use crate::{Invocation, WordsFault};
use clap::ArgMatches;
use route_base::Text;
use std::alloc::Global;

/// Plans each job of the file `jobs` over the files of the folder `dir`, on this many workers.
#[derive(Drop)]
pub struct Batch {
    pub dir: Text,
    pub jobs: Text,
    pub workers: u32,
}

// The command that the words make which `clap` found.
pub fn batch_found(alloc: Global, matches: &ArgMatches) -> Result<Invocation, WordsFault>
    ensures { IsFound matches.now batch_row result }
{
    Ok(Invocation::Batch(Batch {
        dir: folder_at(alloc, matches, "dir")?,
        jobs: file_at(alloc, matches, "jobs")?,
        workers: workers_or_usual(matches, "workers")?,
    }))
}
