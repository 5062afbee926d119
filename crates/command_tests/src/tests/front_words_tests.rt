// Words that are a command, and words that are none.
use front_words::{Command, WordsFault, read_words};
use route_base::{Form, Minute, OutOfMemory, Text};
use std::alloc::{AllocError, Global};
use std::process::Abort;

// In each row words with `|` between them, and the command that they are.
const CASES: &str = "\
plan => no
 => no
Plan|d|any|1|3|26563680|26564080 => no
help => no
--help => no
-h => no
--form|csv|plan|d|any|1|3|26563680|26564080 => no
plan|d|any|1|3|26563680|26564080 => plan d any 1 3 26563680 26564080 plain -
plan|d|any|0|4294967295|525600|120968639 => plan d any 0 4294967295 525600 120968639 plain -
plan|a b/c|v_1.x|1|3|2020-07-04T00:00Z|2020-07-04T06:40:00Z => plan a b/c v_1.x 1 3 26563680 26564080 plain -
plan|--form|csv|d|any|1|3|26563680|26564080 => plan d any 1 3 26563680 26564080 csv -
plan|d|any|1|--form|json|3|26563680|26564080 => plan d any 1 3 26563680 26564080 json -
plan|d|any|1|3|26563680|26564080|--form|table => plan d any 1 3 26563680 26564080 table -
plan|d|any|1|3|26563680|26564080|--form|plain => plan d any 1 3 26563680 26564080 plain -
plan|--form=csv|d|any|1|3|26563680|26564080 => plan d any 1 3 26563680 26564080 csv -
plan|d|any|1|3|26563680|--form=json|26564080 => plan d any 1 3 26563680 26564080 json -
plan|d|any|1|3|26563680|26564080|--certificate|c.cert => plan d any 1 3 26563680 26564080 plain c.cert
plan|--certificate=c.cert|d|any|1|3|26563680|26564080|--form=csv => plan d any 1 3 26563680 26564080 csv c.cert
plan|d|--form|table|any|1|3|--certificate|.cert|26563680|26564080 => plan d any 1 3 26563680 26564080 table .cert
plan|d|any|1|3|26563680|26564080|--certificate|abcdefghijklmnopqrstuvwxyzABCDEFGHIJKLMNOPQRSTUVWXYZ0123456.cert => plan d any 1 3 26563680 26564080 plain abcdefghijklmnopqrstuvwxyzABCDEFGHIJKLMNOPQRSTUVWXYZ0123456.cert
plan|d|any|1|3|26563680|26564080|--certificate|abcdefghijklmnopqrstuvwxyzABCDEFGHIJKLMNOPQRSTUVWXYZ01234567.cert => no
plan|d|any|1|3|26563680|26564080|--certificate|cert => no
plan|d|any|1|3|26563680|26564080|--certificate|c.certs => no
plan|d|any|1|3|26563680|26564080|--certificate|a/c.cert => no
plan|d|any|1|3|26563680|26564080|--certificate=-c.cert => no
plan|d|any|1|3|26563680|26564080|--certificate => no
plan|d|any|1|3|26563680|26564080|--certificate= => no
plan|d|any|1|3|26563680|26564080|--certificate| => no
plan|d|any|1|3|26563680|26564080|--certificate|-c.cert => no
plan|d|any|1|3|26563680|26564080|--certificate|--form|csv => no
plan|d|any|1|3|26563680|26564080|--form => no
plan|d|any|1|3|26563680|26564080|--form= => no
plan|d|any|1|3|26563680|26564080|--form| => no
plan|d|any|1|3|26563680|26564080|--form|CSV => no
plan|d|any|1|3|26563680|26564080|--form=Json => no
plan|d|any|1|3|26563680|26564080|--form|xml => no
plan|d|any|1|3|26563680|26564080|--form==csv => no
plan|d|any|1|3|26563680|26564080|--form=csv= => no
plan|d|any|1|3|26563680|26564080|--form|-csv => no
plan|d|any|1|3|26563680|26564080|--form=-csv => no
plan|d|any|1|3|26563680|26564080|--form=--certificate => no
plan|d|any|1|3|26563680|26564080|--form|--certificate|c.cert => no
plan|d|any|1|3|26563680|26564080|--form|csv|--form|csv => no
plan|--form=csv|d|any|1|3|26563680|26564080|--form|table => no
plan|--certificate|c.cert|d|any|1|3|26563680|26564080|--certificate=c.cert => no
plan|d|any|1|3|26563680|26564080|--Form|csv => no
plan|d|any|1|3|26563680|26564080|--for|csv => no
plan|d|any|1|3|26563680|26564080|-form|csv => no
plan|d|any|1|3|26563680|26564080|-f|csv => no
plan|d|any|1|3|26563680|26564080|form|csv => no
plan|d|any|1|3|26563680|26564080|--workers|2 => no
plan|d|any|1|3|26563680|26564080|-h => no
plan|d|any|1|3|26563680|26564080|-- => no
plan|--|d|any|1|3|26563680|26564080 => no
plan|d|any|1|3|26563680|26564080|- => no
plan|-|any|1|3|26563680|26564080 => no
plan|-d|any|1|3|26563680|26564080 => no
plan||any|1|3|26563680|26564080 => no
plan|d|a/b|1|3|26563680|26564080 => no
plan|d|any|01|3|26563680|26564080 => no
plan|d|any|1|03|26563680|26564080 => no
plan|d|any|1|4294967296|26563680|26564080 => no
plan|d|any|+1|3|26563680|26564080 => no
plan|d|any|1|3|026563680|26564080 => no
plan|d|any|1|3|525599|26564080 => no
plan|d|any|1|3|26563680|120968640 => no
plan|d|any|1|3|26563680 => no
plan|d|any|1|3|26563680|26564080|more => no
check|d|any|1|3|26563680|26564080|c.cert => check d any 1 3 26563680 26564080 c.cert
check|d|any|1|3|26563680|26564080 => no
check|d|any|1|3|26563680|26564080|c => no
check|d|any|1|3|26563680|26564080|--certificate|c.cert => no
check|d|any|1|3|26563680|26564080|c.cert|--form|csv => no
bans|d|any|2|26563680|26564080 => bans d any 2 26563680 26564080
bans|d|any|2|26563680|26564080|--form=csv => no
bans|d|any|02|26563680|26564080 => no
bans|d|any|2|3|26563680|26564080 => no
";

// The same of batches.
const BATCHES: &str = "\
batch|d|jobs.csv => batch d jobs.csv 4
batch|a b/c|any => batch a b/c any 4
batch|d|. => batch d . 4
batch|d|jobs.csv|--workers|1 => batch d jobs.csv 1
batch|d|jobs.csv|--workers|4 => batch d jobs.csv 4
batch|d|jobs.csv|--workers|64 => batch d jobs.csv 64
batch|d|--workers|2|jobs.csv => batch d jobs.csv 2
batch|--workers=2|d|jobs.csv => batch d jobs.csv 2
batch|d|jobs.csv|--workers=64 => batch d jobs.csv 64
batch|d|jobs.csv|--workers|0 => no
batch|d|jobs.csv|--workers|65 => no
batch|d|jobs.csv|--workers|04 => no
batch|d|jobs.csv|--workers|+4 => no
batch|d|jobs.csv|--workers|4294967297 => no
batch|d|jobs.csv|--workers|two => no
batch|d|jobs.csv|--workers| => no
batch|d|jobs.csv|--workers= => no
batch|d|jobs.csv|--workers => no
batch|d|jobs.csv|--workers|-1 => no
batch|d|jobs.csv|--workers|2|--workers|2 => no
batch|--workers=2|d|jobs.csv|--workers|3 => no
batch|d|jobs.csv|--Workers|2 => no
batch|d|jobs.csv|-w|2 => no
batch|d|jobs.csv|--form|csv => no
batch => no
batch|d => no
batch|d|--workers|2 => no
batch|d|jobs.csv|more => no
batch||jobs.csv => no
batch|-d|jobs.csv => no
batch|d| => no
batch|d|-jobs => no
batch|d|a/b => no
batch|d|abcdefghijklmnopqrstuvwxyzABCDEFGHIJKLMNOPQRSTUVWXYZ01234567.csv => batch d abcdefghijklmnopqrstuvwxyzABCDEFGHIJKLMNOPQRSTUVWXYZ01234567.csv 4
batch|d|abcdefghijklmnopqrstuvwxyzABCDEFGHIJKLMNOPQRSTUVWXYZ012345678.csv => no
";

// The same of networks that are drawn.
const NETWORKS: &str = "\
gen|d|7|1|2 => gen d 7 1 2
gen|a b/c|1|1|1 => gen a b/c 1 1 1
gen|d|2147483646|150|150 => gen d 2147483646 150 150
gen|d|7|400|56 => gen d 7 400 56
gen|d|7|1|400 => gen d 7 1 400
gen|d|0|1|2 => no
gen|d|2147483647|1|2 => no
gen|d|4294967297|1|2 => no
gen|d|18446744073709551617|1|2 => no
gen|d|07|1|2 => no
gen|d|7|0|2 => no
gen|d|7|1|0 => no
gen|d|7|01|2 => no
gen|d|7|1|02 => no
gen|d|7|401|1 => no
gen|d|7|1|401 => no
gen|d|7|4294967297|1 => no
gen|d|7|1|4294967297 => no
gen|d|7|150|151 => no
gen|d|7|151|150 => no
gen|d|7|400|57 => no
gen|d|7|400|400 => no
gen|d|7|1 => no
gen|d|7|1|2|3 => no
gen|7|1|2 => no
gen||7|1|2 => no
gen|-d|7|1|2 => no
gen|d|7|1|2|--workers|2 => no
Gen|d|7|1|2 => no
";

// The same of the other commands of a trip.
const TRIPS: &str = "\
latest|d|any|1|3|26563680|26564080 => latest d any 1 3 26563680 26564080
latest|a b/c|v_1.x|0|4294967295|2020-07-04T00:00Z|120968639 => latest a b/c v_1.x 0 4294967295 26563680 120968639
latest|d|any|1|3|26563680 => no
latest|d|any|1|3|26563680|26564080|more => no
latest|-d|any|1|3|26563680|26564080 => no
latest|d|a/b|1|3|26563680|26564080 => no
latest|d|any|01|3|26563680|26564080 => no
latest|d|any|1|4294967296|26563680|26564080 => no
latest|d|any|1|3|525599|26564080 => no
latest|d|any|1|3|26563680|120968640 => no
latest|d|any|1|3|26563680|26564080|--form|csv => no
latest|--drive=1|d|any|1|3|26563680|26564080 => no
Latest|d|any|1|3|26563680|26564080 => no
tour|d|any|1|3|26563680|26564080|s.csv => tour d any 1 3 26563680 26564080 s.csv
tour|d|any|1|3|26563680|26564080|any => tour d any 1 3 26563680 26564080 any
tour|d|any|1|3|26563680|26564080|abcdefghijklmnopqrstuvwxyzABCDEFGHIJKLMNOPQRSTUVWXYZ01234567.csv => tour d any 1 3 26563680 26564080 abcdefghijklmnopqrstuvwxyzABCDEFGHIJKLMNOPQRSTUVWXYZ01234567.csv
tour|d|any|1|3|26563680|26564080|abcdefghijklmnopqrstuvwxyzABCDEFGHIJKLMNOPQRSTUVWXYZ012345678.csv => no
tour|d|any|1|3|26563680|26564080 => no
tour|d|any|1|3|26563680|26564080|s.csv|more => no
tour|d|any|1|3|26563680|26564080| => no
tour|d|any|1|3|26563680|26564080|a/s.csv => no
tour|d|any|1|3|26563680|26564080|-s.csv => no
tour|d|any|1|3|26563680|26564080|s csv => no
tour|d|any|1|3|s.csv|26563680|26564080 => no
tour|d|any|1|3|26563680|26564080|s.csv|--rest|45 => rested tour d any 1 3 26563680 26564080 s.csv 270 45
tour|d|any|1|3|26563680|26564080|s.csv|--drive=540 => rested tour d any 1 3 26563680 26564080 s.csv 540 45
tour|--drive|179|d|any|1|3|26563680|26564080|--rest=1440|s.csv => rested tour d any 1 3 26563680 26564080 s.csv 179 1440
tour|d|any|1|3|26563680|26564080|s.csv|--rest|45|--drive|270 => rested tour d any 1 3 26563680 26564080 s.csv 270 45
tour|d|any|1|3|26563680|26564080|s.csv|--drive|1|--rest|1 => rested tour d any 1 3 26563680 26564080 s.csv 1 1
tour|d|any|1|3|26563680|26564080|s.csv|--drive|0 => no
tour|d|any|1|3|26563680|26564080|s.csv|--drive|1441 => no
tour|d|any|1|3|26563680|26564080|s.csv|--rest|0 => no
tour|d|any|1|3|26563680|26564080|s.csv|--rest|1441 => no
tour|d|any|1|3|26563680|26564080|s.csv|--drive|270|--drive|270 => no
tour|d|any|1|3|26563680|26564080|s.csv|--rest=45|--rest=45 => no
tour|d|any|1|3|26563680|26564080|s.csv|--drive|-1 => no
tour|d|any|1|3|26563680|26564080|s.csv|--rest=-45 => no
tour|d|any|1|3|26563680|26564080|s.csv|--drive=045 => no
tour|d|any|1|3|26563680|26564080|s.csv|--drive= => no
tour|d|any|1|3|26563680|26564080|s.csv|--drive => no
tour|d|any|1|3|26563680|26564080|s.csv|--rest| => no
tour|d|any|1|3|26563680|26564080|--drive|270 => no
tour|d|any|1|3|26563680|26564080|s.csv|--form=csv => no
explain|d|any|1|3|26563680|26564080|i.txt => explain d any 1 3 26563680 26564080 i.txt
explain|a b/c|v_1.x|0|4294967295|2020-07-04T00:00Z|120968639|any => explain a b/c v_1.x 0 4294967295 26563680 120968639 any
explain|d|any|1|3|26563680|26564080|abcdefghijklmnopqrstuvwxyzABCDEFGHIJKLMNOPQRSTUVWXYZ01234567.txt => explain d any 1 3 26563680 26564080 abcdefghijklmnopqrstuvwxyzABCDEFGHIJKLMNOPQRSTUVWXYZ01234567.txt
explain|d|any|1|3|26563680|26564080|abcdefghijklmnopqrstuvwxyzABCDEFGHIJKLMNOPQRSTUVWXYZ012345678.txt => no
explain|d|any|1|3|26563680|26564080 => no
explain|d|any|1|3|26563680|26564080|i.txt|more => no
explain|d|any|1|3|26563680|26564080| => no
explain|d|any|1|3|26563680|26564080|a/i.txt => no
explain|d|any|1|3|26563680|26564080|-i.txt => no
explain|d|any|1|3|26563680|26564080|i txt => no
explain|d|any|1|3|i.txt|26563680|26564080 => no
explain|-d|any|1|3|26563680|26564080|i.txt => no
explain|d|a/b|1|3|26563680|26564080|i.txt => no
explain|d|any|1|03|26563680|26564080|i.txt => no
explain|d|any|4294967296|3|26563680|26564080|i.txt => no
explain|d|any|1|3|525599|26564080|i.txt => no
explain|d|any|1|3|26563680|120968640|i.txt => no
explain|d|any|1|3|26563680|26564080|--itinerary|i.txt => no
explain|d|any|1|3|26563680|26564080|i.txt|--form|csv => no
explain|--drive=1|d|any|1|3|26563680|26564080|i.txt => no
Explain|d|any|1|3|26563680|26564080|i.txt => no
";

// The same of plans with breaks.
const BREAKS: &str = "\
breaks|d|any|1|3|26563680|26564080 => breaks d any 1 3 26563680 26564080 270 45
breaks|d|any|1|3|26563680|26564080|--drive|179 => breaks d any 1 3 26563680 26564080 179 45
breaks|d|any|1|3|26563680|26564080|--rest=30 => breaks d any 1 3 26563680 26564080 270 30
breaks|d|any|1|3|26563680|26564080|--rest=45 => breaks d any 1 3 26563680 26564080 270 45
breaks|d|any|1|3|26563680|26564080|--drive|1|--rest|1440 => breaks d any 1 3 26563680 26564080 1 1440
breaks|d|any|1|3|26563680|26564080|--rest|1440|--drive|1 => breaks d any 1 3 26563680 26564080 1 1440
breaks|--rest=1|--drive=1440|d|any|1|3|26563680|26564080 => breaks d any 1 3 26563680 26564080 1440 1
breaks|--drive|360|d|any|1|3|26563680|--rest=20|26564080 => breaks d any 1 3 26563680 26564080 360 20
breaks|d|--rest|20|any|1|3|26563680|26564080|--drive=360 => breaks d any 1 3 26563680 26564080 360 20
breaks|d|any|1|3|26563680|26564080|--drive|0 => no
breaks|d|any|1|3|26563680|26564080|--drive=0 => no
breaks|d|any|1|3|26563680|26564080|--drive|1441 => no
breaks|d|any|1|3|26563680|26564080|--drive|01 => no
breaks|d|any|1|3|26563680|26564080|--drive|0270 => no
breaks|d|any|1|3|26563680|26564080|--drive|+1 => no
breaks|d|any|1|3|26563680|26564080|--drive|-1 => no
breaks|d|any|1|3|26563680|26564080|--drive=-1 => no
breaks|d|any|1|3|26563680|26564080|--drive|4h => no
breaks|d|any|1|3|26563680|26564080|--drive|18446744073709551886 => no
breaks|d|any|1|3|26563680|26564080|--drive => no
breaks|d|any|1|3|26563680|26564080|--drive= => no
breaks|d|any|1|3|26563680|26564080|--drive| => no
breaks|d|any|1|3|26563680|26564080|--drive|--rest|45 => no
breaks|d|any|1|3|26563680|26564080|--drive|270|--drive|270 => no
breaks|--drive=270|d|any|1|3|26563680|26564080|--drive|200 => no
breaks|d|any|1|3|26563680|26564080|--rest|0 => no
breaks|d|any|1|3|26563680|26564080|--rest|1441 => no
breaks|d|any|1|3|26563680|26564080|--rest=1441 => no
breaks|d|any|1|3|26563680|26564080|--rest|045 => no
breaks|d|any|1|3|26563680|26564080|--rest => no
breaks|d|any|1|3|26563680|26564080|--rest= => no
breaks|d|any|1|3|26563680|26564080|--rest|45|--rest=45 => no
breaks|d|any|1|3|26563680|26564080|--drive|270|--rest|45|--rest|45 => no
breaks|d|any|1|3|26563680|26564080|--Drive|270 => no
breaks|d|any|1|3|26563680|26564080|-drive|270 => no
breaks|d|any|1|3|26563680|26564080|drive|270 => no
breaks|d|any|1|3|26563680|26564080|--break|45 => no
breaks|d|any|1|3|26563680|26564080|--form|csv => no
breaks|d|any|1|3|26563680 => no
breaks|d|any|1|3|26563680|--drive|270 => no
breaks|d|any|1|3|26563680|26564080|more => no
breaks|d|a/b|1|3|26563680|26564080 => no
plan|d|any|1|3|26563680|26564080|--drive|270 => no
";

// The words of a line; an empty line has none.
fn words_of(alloc: Global, line: &str) -> Result<Vec<Text>, OutOfMemory> {
    let mut words = Vec::new(alloc);
    if !line.is_empty() {
        push_words(alloc, &mut words, line)?;
    }
    Ok(words)
}

// Pushes the words of a line.
fn push_words(alloc: Global, words: &mut Vec<Text>, line: &str) -> Result<(), OutOfMemory> {
    for word in line.split('|') {
        words.push(Text::of(alloc, word)?)?;
    }
    Ok(())
}

// The word for a form.
fn word_of(form: Form) -> &'static str {
    match form {
        Form::Plain => "plain",
        Form::Table => "table",
        Form::Csv => "csv",
        Form::Json => "json",
    }
}

// The name that is given, or a dash.
fn name_of(name: &Option<Text>) -> &str {
    match name {
        Some(name) => name.as_str(),
        None => "-",
    }
}

// Whether the text was made, and is this one.
fn is_line(made: Result<String, AllocError>, wanted: &str) -> bool {
    match made {
        Ok(line) => line.as_str() == wanted,
        Err(_) => false,
    }
}

// The words of a trip.
#[derive(Clone, Copy)]
struct Trip<'a> {
    dir: &'a str,
    vehicle: &'a str,
    from: u32,
    to: u32,
    depart: Minute,
    until: Minute,
}

// Whether this is the line of a command of this name with the words of a trip and more words.
fn is_longer(alloc: Global, name: &str, trip: Trip<'_>, more: &str, wanted: &str) -> bool {
    let (dir, vehicle, from, to) = (trip.dir, trip.vehicle, trip.from, trip.to);
    let (depart, until) = (trip.depart, trip.until);
    let made = format!(in alloc; "{name} {dir} {vehicle} {from} {to} {depart} {until} {more}");
    is_line(made, wanted)
}

// Whether the command is this line of `plan`.
fn is_plan(alloc: Global, command: &Command, wanted: &str) -> bool {
    let Command::Plan {
        dir,
        vehicle,
        from,
        to,
        depart,
        until,
        form,
        certificate,
    } = command
    else {
        return false;
    };
    let trip = Trip {
        dir: dir.as_str(),
        vehicle: vehicle.as_str(),
        from: *from,
        to: *to,
        depart: *depart,
        until: *until,
    };
    let (form, name) = (word_of(*form), name_of(certificate));
    match format!(in alloc; "{form} {name}") {
        Ok(more) => is_longer(alloc, "plan", trip, more.as_str(), wanted),
        Err(_) => false,
    }
}

// Whether the command is this line of `check`.
fn is_check(alloc: Global, command: &Command, wanted: &str) -> bool {
    let Command::Check {
        dir,
        vehicle,
        from,
        to,
        depart,
        until,
        name,
    } = command
    else {
        return false;
    };
    let trip = Trip {
        dir: dir.as_str(),
        vehicle: vehicle.as_str(),
        from: *from,
        to: *to,
        depart: *depart,
        until: *until,
    };
    is_longer(alloc, "check", trip, name.as_str(), wanted)
}

// Whether the command is this line of `bans`.
fn is_bans(alloc: Global, command: &Command, wanted: &str) -> bool {
    let Command::Bans {
        dir,
        vehicle,
        arc,
        depart,
        until,
    } = command
    else {
        return false;
    };
    let (dir, vehicle) = (dir.as_str(), vehicle.as_str());
    let made = format!(in alloc; "bans {dir} {vehicle} {arc} {depart} {until}");
    is_line(made, wanted)
}

// Whether the command is this line of `batch`.
fn is_batch(alloc: Global, command: &Command, wanted: &str) -> bool {
    let Command::Batch { dir, jobs, workers } = command else {
        return false;
    };
    let (dir, jobs) = (dir.as_str(), jobs.as_str());
    let made = format!(in alloc; "batch {dir} {jobs} {workers}");
    is_line(made, wanted)
}

// Whether the command is this line of `gen`.
fn is_gen(alloc: Global, command: &Command, wanted: &str) -> bool {
    let Command::Gen {
        dir,
        number,
        rows,
        columns,
    } = command
    else {
        return false;
    };
    let dir = dir.as_str();
    let made = format!(in alloc; "gen {dir} {number} {rows} {columns}");
    is_line(made, wanted)
}

// Whether the command is this line of `latest`.
fn is_latest(alloc: Global, command: &Command, wanted: &str) -> bool {
    let Command::Latest {
        dir,
        vehicle,
        from,
        to,
        depart,
        until,
    } = command
    else {
        return false;
    };
    let (dir, vehicle) = (dir.as_str(), vehicle.as_str());
    let made = format!(in alloc; "latest {dir} {vehicle} {from} {to} {depart} {until}");
    is_line(made, wanted)
}

// Whether the command is this line of `tour`.
fn is_tour(alloc: Global, command: &Command, wanted: &str) -> bool {
    let Command::Tour {
        dir,
        vehicle,
        from,
        to,
        depart,
        until,
        stops,
    } = command
    else {
        return false;
    };
    let trip = Trip {
        dir: dir.as_str(),
        vehicle: vehicle.as_str(),
        from: *from,
        to: *to,
        depart: *depart,
        until: *until,
    };
    is_longer(alloc, "tour", trip, stops.as_str(), wanted)
}

// Whether the command is this line of `tour` under a rule.
fn is_rested_tour(alloc: Global, command: &Command, wanted: &str) -> bool {
    let Command::RestedTour {
        dir,
        vehicle,
        from,
        to,
        depart,
        until,
        stops,
        drive,
        rest,
    } = command
    else {
        return false;
    };
    let trip = Trip {
        dir: dir.as_str(),
        vehicle: vehicle.as_str(),
        from: *from,
        to: *to,
        depart: *depart,
        until: *until,
    };
    let stops = stops.as_str();
    match format!(in alloc; "{stops} {drive} {rest}") {
        Ok(more) => is_longer(alloc, "rested tour", trip, more.as_str(), wanted),
        Err(_) => false,
    }
}

// Whether the command is this line of `breaks`.
fn is_breaks(alloc: Global, command: &Command, wanted: &str) -> bool {
    let Command::Breaks {
        dir,
        vehicle,
        from,
        to,
        depart,
        until,
        drive,
        rest,
    } = command
    else {
        return false;
    };
    let trip = Trip {
        dir: dir.as_str(),
        vehicle: vehicle.as_str(),
        from: *from,
        to: *to,
        depart: *depart,
        until: *until,
    };
    match format!(in alloc; "{drive} {rest}") {
        Ok(more) => is_longer(alloc, "breaks", trip, more.as_str(), wanted),
        Err(_) => false,
    }
}

// Whether the command is this line of `explain`.
fn is_explain(alloc: Global, command: &Command, wanted: &str) -> bool {
    let Command::Explain {
        dir,
        vehicle,
        from,
        to,
        depart,
        until,
        itinerary,
    } = command
    else {
        return false;
    };
    let trip = Trip {
        dir: dir.as_str(),
        vehicle: vehicle.as_str(),
        from: *from,
        to: *to,
        depart: *depart,
        until: *until,
    };
    is_longer(alloc, "explain", trip, itinerary.as_str(), wanted)
}

// Whether a command has this line.
fn has_line(alloc: Global, command: &Command, wanted: &str) -> bool {
    is_plan(alloc, command, wanted)
        || is_check(alloc, command, wanted)
        || is_bans(alloc, command, wanted)
        || is_batch(alloc, command, wanted)
        || is_gen(alloc, command, wanted)
        || is_latest(alloc, command, wanted)
        || is_tour(alloc, command, wanted)
        || is_rested_tour(alloc, command, wanted)
        || is_breaks(alloc, command, wanted)
        || is_explain(alloc, command, wanted)
}

// Whether the words are the command of this line; `no` is the line of words that are none.
fn are_read(alloc: Global, words: &[Text], wanted: &str) -> bool {
    match read_words(alloc, words) {
        Ok(command) => has_line(alloc, &command, wanted),
        Err(fault) => fault == WordsFault::NotACommand && wanted == "no",
    }
}

// Whether the words of a row are its command.
fn is_row_read(alloc: Global, row: &str) -> Result<bool, OutOfMemory> {
    let Some((line, wanted)) = row.split_once(" => ") else {
        return Ok(false);
    };
    let words = words_of(alloc, line)?;
    Ok(are_read(alloc, words.as_slice(), wanted))
}

// Reads the words of each row, and compares the command.
fn expect_read<R: Abort + AllocGlobal>(rt: &R, rows: &str) {
    for row in rows.lines() {
        assert!(rt; is_row_read(rt.alloc(), row) == Ok(true), "{row}");
    }
}

#[test]
fn reads_commands(rt: HostRuntime) {
    expect_read(&rt, CASES);
    expect_read(&rt, BATCHES);
    expect_read(&rt, NETWORKS);
    expect_read(&rt, TRIPS);
    expect_read(&rt, BREAKS);
}

// A line of a command whose folder has a name of this length.
fn line_with_folder(alloc: Global, length: u32) -> Result<String, OutOfMemory> {
    let mut line = format!(in alloc; "bans|")?;
    for _ in 0..length {
        line.push('d')?;
    }
    line.push_str("|any|2|26563680|26564080")?;
    Ok(line)
}

// Whether a folder with a name of this length is taken.
fn takes_folder(alloc: Global, length: u32) -> Result<bool, OutOfMemory> {
    let line = line_with_folder(alloc, length)?;
    let words = words_of(alloc, line.as_str())?;
    Ok(read_words(alloc, words.as_slice()).is_ok())
}

#[test]
fn takes_folders_of_4096_bytes(rt: HostRuntime) {
    assert!(rt; takes_folder(rt.alloc(), 4096) == Ok(true));
    assert!(rt; takes_folder(rt.alloc(), 4097) == Ok(false));
}
