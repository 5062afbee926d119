// `gen DIR NUMBER ROWS COLUMNS`
ghost use Rattle.std.specs.Prelude.{◌≡◌, ◌*◌, IfOk, nat_le};
ghost use Rattle.front_words.specs.ClapCommands.{values_at};
ghost use Rattle.front_words.specs.Commands.{gen_usage};
ghost use Rattle.front_words.specs.Gen.{gen_places};
ghost use Rattle.front_words.specs.Found.{IsFound, gen_row};
ghost use Rattle.front_words.specs.Inside.{IsAnswerWith, AreCounted, gen_values};
ghost use Rattle.net_generator.specs.declared.limits.TheConstants.{MOST_GENERATED_NODES};

use crate::found::{count_at, folder_at, small_count_at};
use crate::{Invocation, WordsFault};
use clap::ArgMatches;
use net_generator::{LAST_NUMBER, MOST_GENERATED_NODES, MOST_LINES};
use route_base::Text;
use std::alloc::Global;

/// Draws a network of these rows and columns from a number, and writes its files into the folder `dir`.
#[derive(Drop)]
pub struct Gen {
    pub dir: Text,
    pub number: u64,
    pub rows: u32,
    pub columns: u32,
}

// The network that the words say, whose nodes may be too many.
fn counts_found(alloc: Global, matches: &ArgMatches) -> Result<Gen, WordsFault>
    ensures values { IsAnswerWith gen_values
        (values_at matches.now gen_places gen_usage.places) result }
    ensures counted { IfOk result AreCounted }
{
    Ok(Gen {
        dir: folder_at(alloc, matches, "dir")?,
        number: count_at(matches, "number", LAST_NUMBER)?,
        rows: small_count_at(matches, "rows", MOST_LINES)?,
        columns: small_count_at(matches, "columns", MOST_LINES)?,
    })
}

// Whether the nodes are few enough.
fn has_few_nodes(network: &Gen) -> bool
    requires { AreCounted network.now }
    ensures { result ≡ nat_le (network.now.rows * network.now.columns) MOST_GENERATED_NODES }
{
    network.rows * network.columns <= MOST_GENERATED_NODES
}

// The network that the words say, if its nodes are few enough.
pub fn gen_found(alloc: Global, matches: &ArgMatches) -> Result<Invocation, WordsFault>
    ensures { IsFound matches.now gen_row result }
{
    let network = counts_found(alloc, matches)?;
    if has_few_nodes(&network) {
        Ok(Invocation::Gen(network))
    } else {
        Err(WordsFault::NotACommand)
    }
}
