// The values of the words that `clap` found, each in its form.
ghost use Rattle.std.specs.Prelude.{IfOk, IfSome, option_map};
ghost use Rattle.front_words.specs.ClapCommands.{text_at, value_at};
ghost use Rattle.front_words.specs.Forms.{certificate, count, file, folder, instant, number, of_number, of_text, report, text_if, vehicle};
ghost use Rattle.front_words.specs.Inside.{IsAnswer, IsAnswerWith, IsUpTo};
ghost use Rattle.front_words.specs.Usages.{count_in, name_in, number_in, report_in, value_if};
ghost use Rattle.front_words.specs.declared.limits.TheConstants.{MOST_WORKERS, USUAL_WORKERS};
ghost use Rattle.route_base.specs.Time.{IsInstant};

use crate::WordsFault;
use crate::forms::{
    count_word, instant_word, is_certificate_word, is_folder_word, is_name_word, number_word,
    report_word, small_count_word,
};
use crate::limits::{MOST_WORKERS, USUAL_WORKERS};
use clap::ArgMatches;
use route_base::{Form, Minute, Text};
use std::alloc::Global;

// A copy of a word, if it fits.
fn copy_if(alloc: Global, fits: bool, word: &str) -> Result<Text, WordsFault>
    ensures { IsAnswerWith of_text (text_if fits word.now) result }
{
    if fits {
        Ok(Text::of(alloc, word)?)
    } else {
        Err(WordsFault::NotACommand)
    }
}

// The name of a folder.
pub fn folder_at(alloc: Global, matches: &ArgMatches, id: &str) -> Result<Text, WordsFault>
    ensures { IsAnswerWith of_text (value_at matches.now folder id.now) result }
{
    match matches.get_str(id) {
        Some(word) => copy_if(alloc, is_folder_word(word), word),
        None => Err(WordsFault::NotACommand),
    }
}

// The name of a vehicle.
pub fn vehicle_at(alloc: Global, matches: &ArgMatches, id: &str) -> Result<Text, WordsFault>
    ensures { IsAnswerWith of_text (value_at matches.now vehicle id.now) result }
{
    match matches.get_str(id) {
        Some(word) => copy_if(alloc, is_name_word(word), word),
        None => Err(WordsFault::NotACommand),
    }
}

// The name of a file in the folder.
pub fn file_at(alloc: Global, matches: &ArgMatches, id: &str) -> Result<Text, WordsFault>
    ensures { IsAnswerWith of_text (value_at matches.now file id.now) result }
{
    match matches.get_str(id) {
        Some(word) => copy_if(alloc, is_name_word(word), word),
        None => Err(WordsFault::NotACommand),
    }
}

// The name of a certificate.
pub fn certificate_at(alloc: Global, matches: &ArgMatches, id: &str) -> Result<Text, WordsFault>
    ensures { IsAnswerWith of_text (value_at matches.now certificate id.now) result }
{
    match matches.get_str(id) {
        Some(word) => copy_if(alloc, is_certificate_word(word), word),
        None => Err(WordsFault::NotACommand),
    }
}

// The number of a node or of an arc.
pub fn number_at(matches: &ArgMatches, id: &str) -> Result<u32, WordsFault>
    ensures { IsAnswerWith of_number (value_at matches.now number id.now) result }
{
    match matches.get_str(id) {
        Some(word) => number_word(word).ok_or(WordsFault::NotACommand),
        None => Err(WordsFault::NotACommand),
    }
}

// An instant.
pub fn instant_at(matches: &ArgMatches, id: &str) -> Result<Minute, WordsFault>
    ensures value { IsAnswerWith of_number (value_at matches.now instant id.now) result }
    ensures instant { IfOk result IsInstant }
{
    match matches.get_str(id) {
        Some(word) => instant_word(word).ok_or(WordsFault::NotACommand),
        None => Err(WordsFault::NotACommand),
    }
}

// A number from 1 to the limit.
pub fn count_at(matches: &ArgMatches, id: &str, limit: u64) -> Result<u64, WordsFault>
    ensures value { IsAnswerWith of_number (value_at matches.now (count limit) id.now) result }
    ensures within { IfOk result (IsUpTo limit) }
{
    match matches.get_str(id) {
        Some(word) => count_word(word, limit).ok_or(WordsFault::NotACommand),
        None => Err(WordsFault::NotACommand),
    }
}

// A number of 32 bits from 1 to the limit.
pub fn small_count_at(matches: &ArgMatches, id: &str, limit: u32) -> Result<u32, WordsFault>
    ensures value { IsAnswerWith of_number (value_at matches.now (count limit) id.now) result }
    ensures within { IfOk result (IsUpTo limit) }
{
    match matches.get_str(id) {
        Some(word) => small_count_word(word, limit).ok_or(WordsFault::NotACommand),
        None => Err(WordsFault::NotACommand),
    }
}

// The form of a report, or plain if no word says it.
pub fn report_or_plain(matches: &ArgMatches, id: &str) -> Result<Form, WordsFault>
    ensures { IsAnswer (option_map report_in
        (value_if report (text_at matches.now id.now))) result }
{
    match matches.get_str(id) {
        Some(word) => report_word(word).ok_or(WordsFault::NotACommand),
        None => Ok(Form::Plain),
    }
}

// The name of a certificate, if there is one.
pub fn certificate_if(
    alloc: Global,
    matches: &ArgMatches,
    id: &str,
) -> Result<Option<Text>, WordsFault>
    ensures { IsAnswer (option_map name_in
        (value_if certificate (text_at matches.now id.now))) result }
{
    match matches.get_str(id) {
        Some(word) => Ok(Some(copy_if(alloc, is_certificate_word(word), word)?)),
        None => Ok(None),
    }
}

// The number of workers, or the usual one if no word says it.
pub fn workers_or_usual(matches: &ArgMatches, id: &str) -> Result<u32, WordsFault>
    ensures value { IsAnswer (option_map (number_in USUAL_WORKERS)
        (value_if (count MOST_WORKERS) (text_at matches.now id.now))) result }
    ensures within { IfOk result (IsUpTo MOST_WORKERS) }
{
    match matches.get_str(id) {
        Some(word) => small_count_word(word, MOST_WORKERS).ok_or(WordsFault::NotACommand),
        None => Ok(USUAL_WORKERS),
    }
}

// A number from 1 to the limit, if there is one.
pub fn count_if(matches: &ArgMatches, id: &str, limit: u64) -> Result<Option<u64>, WordsFault>
    ensures value { IsAnswer (option_map count_in
        (value_if (count limit) (text_at matches.now id.now))) result }
    ensures within { IfOk result (λ number. IfSome number (IsUpTo limit)) }
{
    match matches.get_str(id) {
        Some(word) => Ok(Some(count_word(word, limit).ok_or(WordsFault::NotACommand)?)),
        None => Ok(None),
    }
}

// A number from 1 to the limit, or the usual one if no word says it.
pub fn count_or_usual(
    matches: &ArgMatches,
    id: &str,
    limit: u64,
    usual: u64,
) -> Result<u64, WordsFault>
    requires { IsUpTo limit usual }
    ensures value { IsAnswer (option_map (number_in usual)
        (value_if (count limit) (text_at matches.now id.now))) result }
    ensures within { IfOk result (IsUpTo limit) }
{
    match matches.get_str(id) {
        Some(word) => count_word(word, limit).ok_or(WordsFault::NotACommand),
        None => Ok(usual),
    }
}
