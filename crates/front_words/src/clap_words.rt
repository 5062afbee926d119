// The line of words that goes to `clap`, and the matches that it gives back.
ghost use Rattle.std.specs.Prelude.{◌≡◌, ◌∷◌, ◌++◌, ℕ, List, IfErr, IfOk, map, option_map};
ghost use Rattle.clap.specs.Words.{app_of, kind_of, with_rule};
ghost use Rattle.front_words.specs.ClapCommands.{IsTaken, app_in, option_line, text_at, text_found, with_rules};
ghost use Rattle.front_words.specs.Inside.{rule_in};

use clap::error::ErrorKind;
use clap::{Arg, ArgMatches, Command, Error};
use route_base::OutOfMemory;
use std::alloc::{AllocError, Global};

// The kinds of arguments: positional words, which must be there, and options, which have a value.
#[derive(Clone, Copy)]
enum ArgKind {
    Place,
    Choice,
}

// The command with an argument more.
fn with_argument<'a>(
    alloc: Global,
    command: Command<'a>,
    kind: ArgKind,
    id: &'a str,
) -> Result<Command<'a>, AllocError>
    ensures { IfOk result (λ c. app_of c
        ≡ with_rule (app_of command.entry) (rule_in kind id.entry.now)) }
{
    match kind {
        ArgKind::Place => {
            let arg = Arg::new(alloc, id).required(true);
            command.arg(arg)
        }
        ArgKind::Choice => {
            let arg = Arg::new(alloc, id).long(id);
            command.arg(arg)
        }
    }
}

// The command with arguments more, in their order.
fn with_arguments<'a>(
    alloc: Global,
    mut command: Command<'a>,
    kind: ArgKind,
    ids: &[&'a str],
) -> Result<Command<'a>, AllocError>
    ensures { IfOk result (λ c. app_of c
        ≡ with_rules (app_of command.entry) (map (λ id. rule_in kind id.now) ids.now)) }
{
    for id in ids {
        command = with_argument(alloc, command, kind, *id)?;
    }
    Ok(command)
}

// The command of this name, with its positional words and its options.
fn command_for<'a>(
    alloc: Global,
    name: &'a str,
    places: &[&'a str],
    choices: &[&'a str],
) -> Result<Command<'a>, AllocError>
    ensures { IfOk result (λ c. app_of c
        ≡ app_in name.entry.now places.entry.now choices.entry.now) }
{
    let command = with_arguments(alloc, Command::new(alloc, name), ArgKind::Place, places)?;
    with_arguments(alloc, command, ArgKind::Choice, choices)
}

// The matches of a line of a command, which `clap` refuses only when it is out of memory.
fn parse_line<'a>(
    alloc: Global,
    name: &'a str,
    places: &[&'a str],
    choices: &[&'a str],
    line: &'a [&'a str],
) -> Result<ArgMatches<'a>, Error>
    requires { IsTaken (app_in name.now places.now choices.now) (map (λ w. w.now) line.now) }
    ensures found { let app = app_in name.entry.now places.entry.now choices.entry.now in
        IfOk result (λ m. (id : List ℕ) → text_at m id
        ≡ text_found app (map (λ w. w.now) line.entry.now) id) }
    ensures refused { IfErr result (λ e. kind_of e ≡ ErrorKind.OutOfMemory) }
{
    let command = command_for(alloc, name, places, choices)?;
    command.try_get_matches_from(line)
}

// The matches of a line of a command, or out of memory.
pub fn matches_for<'a>(
    alloc: Global,
    name: &'a str,
    places: &[&'a str],
    choices: &[&'a str],
    line: &'a [&'a str],
) -> Result<ArgMatches<'a>, OutOfMemory>
    requires { IsTaken (app_in name.now places.now choices.now) (map (λ w. w.now) line.now) }
    ensures { let app = app_in name.entry.now places.entry.now choices.entry.now in
        IfOk result (λ m. (id : List ℕ) → text_at m id
        ≡ text_found app (map (λ w. w.now) line.entry.now) id) }
{
    match parse_line(alloc, name, places, choices, line) {
        Ok(matches) => Ok(matches),
        Err(_) => Err(OutOfMemory),
    }
}

// Appends words to a line.
fn push_words<'a>(line: &mut Vec<&'a str>, words: &[&'a str]) -> Result<(), OutOfMemory>
    ensures { IfOk result (λ _. map (λ w. w.now) line.new.items
        ≡ map (λ w. w.now) line.old.items ++ map (λ w. w.now) words.now) }
{
    for word in words {
        line.push(*word)?;
    }
    Ok(())
}

// Appends an option and its value to a line, if it is given.
pub fn push_option<'a>(
    line: &mut Vec<&'a str>,
    option: &'a str,
    value: Option<&'a str>,
) -> Result<(), OutOfMemory>
    ensures { IfOk result (λ _. map (λ w. w.now) line.new.items
        ≡ map (λ w. w.now) line.old.items
        ++ option_line option.entry.now (option_map (λ w. w.now) value.entry)) }
{
    match value {
        Some(value) => push_words(line, &[option, value]),
        None => Ok(()),
    }
}

// The line that goes to `clap`: a command's name, its options with their values, and its positional words.
pub fn line_of<'a>(
    alloc: Global,
    name: &'a str,
    options: &[&'a str],
    places: &[&'a str],
) -> Result<Vec<&'a str>, OutOfMemory>
    ensures { IfOk result (λ line. map (λ w. w.now) line.items
        ≡ name.entry.now
        ∷ (map (λ w. w.now) options.entry.now ++ map (λ w. w.now) places.entry.now)) }
{
    let mut line = Vec::new(alloc);
    line.push(name)?;
    push_words(&mut line, options)?;
    push_words(&mut line, places)?;
    Ok(line)
}
