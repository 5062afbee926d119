// The table of the commands, and the one way from words to a command by its row.
ghost use Rattle.std.specs.Prelude.{◌≡◌, IfOk, map, option_map};
ghost use Rattle.front_words.specs.ClapCommands.{given_line};
ghost use Rattle.front_words.specs.Commands.{AsksSupported, usages};
ghost use Rattle.front_words.specs.Found.{IsFound};
ghost use Rattle.front_words.specs.Inside.{IsAnswer, IsAnswerWith, IsPlainSplit, choices_in, given_in, ids_in, split_of_words, usage_in};
ghost use Rattle.front_words.specs.Usages.{made_of, option_names, usage_named};

use crate::bans::{BANS_PLACES, bans_found};
use crate::batch::batch_found;
use crate::breaks::{RULE_CHOICES, RULE_OPTIONS, breaks_found};
use crate::check::check_found;
use crate::clap_words::{line_of, matches_for, push_option};
use crate::explain::explain_found;
use crate::generate::gen_found;
use crate::latest::latest_found;
use crate::options::value_of_option;
use crate::plan::{PLAN_CHOICES, PLAN_OPTIONS, plan_found};
use crate::splitting::Given;
use crate::tour::tour_found;
use crate::trip_words::{NAMED_TRIP_PLACES, TRIP_PLACES};
use crate::{Invocation, WordsFault};
use clap::ArgMatches;
use std::alloc::Global;

/// The commands.
#[derive(Clone, Copy)]
pub enum CommandName {
    Plan,
    Check,
    Bans,
    Batch,
    Gen,
    Latest,
    Tour,
    Breaks,
    Explain,
}

/// A row of the table: a command's name, the names that `clap` has for its positional words and for the values of its options, and the
/// options as words.
#[derive(Clone, Copy)]
pub struct Row {
    pub name: &'static str,
    pub places: &'static [&'static str],
    pub choices: &'static [&'static str],
    pub options: &'static [&'static str],
}

// A row.
fn row_of(
    name: &'static str,
    places: &'static [&'static str],
    choices: &'static [&'static str],
    options: &'static [&'static str],
) -> Row
    ensures { result ≡ record {
      name = name.entry;
      places = places.entry;
      choices = choices.entry;
      options = options.entry;
    } }
{
    Row {
        name,
        places,
        choices,
        options,
    }
}

// The command of a name.
pub fn command_named(name: &str) -> Option<CommandName>
    ensures { option_map usage_in result ≡ usage_named usages name.now }
{
    match name {
        "plan" => Some(CommandName::Plan),
        "check" => Some(CommandName::Check),
        "bans" => Some(CommandName::Bans),
        "batch" => Some(CommandName::Batch),
        "gen" => Some(CommandName::Gen),
        "latest" => Some(CommandName::Latest),
        "tour" => Some(CommandName::Tour),
        "breaks" => Some(CommandName::Breaks),
        "explain" => Some(CommandName::Explain),
        _ => None,
    }
}

impl CommandName {
    // The command's row.
    pub fn row(self) -> Row
        ensures name { result.name.now ≡ (usage_in self).name }
        ensures places { map (λ id. id.now) result.places.now ≡ ids_in self }
        ensures choices { map (λ id. id.now) result.choices.now ≡ choices_in self }
        ensures options { map (λ o. o.now) result.options.now
            ≡ option_names (usage_in self).options }
    {
        match self {
            CommandName::Plan => row_of("plan", TRIP_PLACES, PLAN_CHOICES, PLAN_OPTIONS),
            CommandName::Check => row_of("check", NAMED_TRIP_PLACES, &[], &[]),
            CommandName::Bans => row_of("bans", BANS_PLACES, &[], &[]),
            CommandName::Batch => row_of("batch", &["dir", "jobs"], &["workers"], &["--workers"]),
            CommandName::Gen => row_of("gen", &["dir", "number", "rows", "columns"], &[], &[]),
            CommandName::Latest => row_of("latest", TRIP_PLACES, &[], &[]),
            CommandName::Tour => row_of("tour", NAMED_TRIP_PLACES, RULE_CHOICES, RULE_OPTIONS),
            CommandName::Breaks => row_of("breaks", TRIP_PLACES, RULE_CHOICES, RULE_OPTIONS),
            CommandName::Explain => row_of("explain", NAMED_TRIP_PLACES, &[], &[]),
        }
    }

    // The command that the words say.
    fn found(self, alloc: Global, matches: &ArgMatches) -> Result<Invocation, WordsFault>
        ensures { IsFound matches.now self result }
    {
        match self {
            CommandName::Plan => plan_found(alloc, matches),
            CommandName::Check => check_found(alloc, matches),
            CommandName::Bans => bans_found(alloc, matches),
            CommandName::Batch => batch_found(alloc, matches),
            CommandName::Gen => gen_found(alloc, matches),
            CommandName::Latest => latest_found(alloc, matches),
            CommandName::Tour => tour_found(alloc, matches),
            CommandName::Breaks => breaks_found(alloc, matches),
            CommandName::Explain => explain_found(alloc, matches),
        }
    }
}

// The options of a row with their values, if they are given; NotACommand exactly if one is given twice.
fn given_words<'a>(
    alloc: Global,
    options: &'static [&'static str],
    given: &[Given<'a>],
) -> Result<Vec<&'a str>, WordsFault>
    ensures { IsAnswerWith (λ line. map (λ w. w.now) line.items)
        (given_line (map (λ o. o.now) options.now) (map given_in given.now)) result }
{
    let mut line = Vec::new(alloc);
    for option in options {
        let value = value_of_option(given, option)?;
        push_option(&mut line, option, value)?;
    }
    Ok(line)
}

/// The command of positional words and of the values of options, by `clap`.
pub fn read_row(
    alloc: Global,
    command: CommandName,
    places: &[&str],
    given: &[Given],
) -> Result<Invocation, WordsFault>
    requires { IsPlainSplit (split_of_words places.now given.now) }
    ensures made { IsAnswer
        (made_of (usage_in command) (split_of_words places.now given.now)) result }
    ensures supported { IfOk result AsksSupported }
{
    let row = command.row();
    let options = given_words(alloc, row.options, given)?;
    if places.len() != row.places.len() {
        return Err(WordsFault::NotACommand);
    }
    let line = line_of(alloc, row.name, options.as_slice(), places)?;
    let matches = matches_for(alloc, row.name, row.places, row.choices, line.as_slice())?;
    command.found(alloc, &matches)
}
