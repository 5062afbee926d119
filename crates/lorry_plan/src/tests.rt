//! The tests that cross crates, by subject: whole runs, the objects in memory, and the edge to the system.

mod bans;
mod batches;
mod breaks;
mod certificates;
mod explain;
mod faults;
mod forms;
mod fronts;
mod gates;
mod generation;
mod graph;
mod itineraries;
mod latest;
mod limits;
mod lists;
mod requests;
mod rules;
mod system;
mod tables;
mod tours;
mod words;

use front_desk::run;
use route_base::{
    FileList, Folder, MemFolder, MemSink, Ordinals, OutOfMemory, ReadAllFault, Sink, Status,
    SureFolder, SureSink, Text, read_all,
};
use std::alloc::Global;
use std::process::Abort;
use std::thread::Threads;

// A triangle in which the way over node 2 takes 120 minutes, and the straight one 300.
const TRIANGLE: &str = "p sp 3 3\na 1 2 60\na 2 3 60\na 1 3 300\n";

// The words of a trip over it, and the answer to them.
const TRIP: &str = "plan d any 1 3 26563680 26564080";

const ONE_PAIR: &str = "pairs 1\npair 26563800 120.000\ndrive 1\ndrive 2\n";

// Tables over the triangle: its second arc is closed for two hours, and lorries can wait at its second node.
const CLOSED: &str = "arc,from,to\n2,26563740,26563860\n";

const RATED: &str = "rating,weight\nr,2.000\n";

const PARKED: &str = "node,rating\n2,r\n";

// The answer to the same words over these tables.
const TWO_PAIRS: &str =
    "pairs 2\npair 26563920 360.000\ndrive 1\nwait 120\ndrive 2\npair 26563980 300.000\ndrive 3\n";

// The names and the texts of files.
type Texts<'a> = &'a [(&'a str, &'a str)];

// The triangle alone, and with its tables.
const GRAPH: Texts<'static> = &[("d/graph.gr", TRIANGLE)];

const NETWORK: Texts<'static> = &[
    ("d/graph.gr", TRIANGLE),
    ("d/closures.csv", CLOSED),
    ("d/ratings.csv", RATED),
    ("d/parking.csv", PARKED),
];

// The list of the first of these files alone.
fn first_of(alloc: Global, files: Texts<'_>) -> Result<FileList, OutOfMemory> {
    let mut list = FileList::new(alloc);
    if let [(name, text), ..] = files {
        list.push(name, text.as_bytes())?;
    }
    Ok(list)
}

// A folder that never fails and holds these files, of which a later one replaces an earlier one of its name.
fn sure_folder(alloc: Global, files: Texts<'_>) -> Result<SureFolder, OutOfMemory> {
    let mut folder = SureFolder::new(first_of(alloc, files)?);
    put_files(&mut folder, files)?;
    Ok(folder)
}

// A folder that never fails and holds the files of both lists.
fn folder_of_both(
    alloc: Global,
    base: Texts<'_>,
    more: Texts<'_>,
) -> Result<SureFolder, OutOfMemory> {
    let mut folder = sure_folder(alloc, base)?;
    put_files(&mut folder, more)?;
    Ok(folder)
}

// Puts these files into a folder in memory.
fn put_files<F: Folder>(folder: &mut F, files: Texts<'_>) -> Result<(), OutOfMemory> {
    for (name, text) in files {
        if folder.write_file(name, text.as_bytes()).is_err() {
            return Err(OutOfMemory);
        }
    }
    Ok(())
}

// The list of one ordinal.
fn just(alloc: Global, ordinal: u64) -> Result<Ordinals, OutOfMemory> {
    let mut ordinals = Ordinals::new(alloc);
    ordinals.push(ordinal)?;
    Ok(ordinals)
}

// Pushes the words of a line, which single blanks separate.
fn push_words(alloc: Global, words: &mut Vec<Text>, line: &str) -> Result<(), OutOfMemory> {
    for word in line.split(' ') {
        words.push(Text::of(alloc, word)?)?;
    }
    Ok(())
}

// The words of a line; an empty line has none.
fn words_of(alloc: Global, line: &str) -> Result<Vec<Text>, OutOfMemory> {
    let mut words = Vec::new(alloc);
    if !line.is_empty() {
        push_words(alloc, &mut words, line)?;
    }
    Ok(words)
}

// Whether the bytes are there and have this text.
fn is_text(bytes: Option<&[u8]>, text: &str) -> bool {
    match bytes {
        Some(bytes) => bytes == text.as_bytes(),
        None => false,
    }
}

// Whether the bytes are those of the text, or the fault is the one that is due.
fn is_whole(read: &Result<Vec<u8>, ReadAllFault>, want: Result<&str, ReadAllFault>) -> bool {
    match (read, want) {
        (Ok(bytes), Ok(text)) => bytes.as_slice() == text.as_bytes(),
        (Err(fault), Err(due)) => *fault == due,
        _ => false,
    }
}

// Whether reading a whole file gives the bytes of the text, or the fault that is due.
fn reads_to<F: Folder>(
    alloc: Global,
    folder: &mut F,
    name: &str,
    limit: u64,
    want: Result<&str, ReadAllFault>,
) -> bool {
    is_whole(&read_all(alloc, folder, name, limit), want)
}

// Reads a whole file, and compares its bytes or the fault.
fn expect_whole<R: Abort + AllocGlobal, F: Folder>(
    rt: &R,
    folder: &mut F,
    name: &str,
    limit: u64,
    want: Result<&str, ReadAllFault>,
) {
    let whole = reads_to(rt.alloc(), folder, name, limit, want);
    assert!(rt; whole, "{name} to {limit} isn't {want:?}");
}

// A run: the files beside those of the base, the words, and the status and the whole text that are due.
#[derive(Clone, Copy)]
struct Case<'a> {
    more: Texts<'a>,
    words: &'a str,
    status: Status,
    text: &'a str,
}

// Runs the words over the folder, and writes to the sink.
fn run_into<R: Threads + Sync + AllocGlobal, F: Folder, S: Sink>(
    rt: &R,
    folder: &mut F,
    line: &str,
    sink: &mut S,
) -> Result<Status, OutOfMemory> {
    let words = words_of(rt.alloc(), line)?;
    Ok(run(rt, rt.alloc(), words.as_slice(), folder, sink))
}

// Runs the words over the folder: the status, and whether the whole text is this one.
fn run_to<R: Threads + Sync + AllocGlobal, F: Folder>(
    rt: &R,
    folder: &mut F,
    line: &str,
    text: &str,
) -> Result<(Status, bool), OutOfMemory> {
    let mut sink = SureSink::new(rt.alloc());
    let ended = run_into(rt, folder, line, &mut sink)?;
    Ok((ended, sink.written() == text.as_bytes()))
}

// Fails with the name of a run that doesn't end with the status and the whole text that are due.
fn expect_end<R: Abort>(
    rt: &R,
    name: &str,
    got: Result<(Status, bool), OutOfMemory>,
    status: Status,
) {
    assert!(rt; got == Ok((status, true)), "{name:?}: {got:?}");
}

// Runs the words over the folder, and compares the status and the whole text.
fn expect_over<R: Abort + Threads + Sync + AllocGlobal, F: Folder>(
    rt: &R,
    folder: &mut F,
    line: &str,
    (status, text): (Status, &str),
) {
    expect_end(rt, line, run_to(rt, folder, line, text), status);
}

// Runs the words over the folder, when the writing call of this ordinal fails: the status, and whether the whole text is
// this one.
fn run_failing<R: Threads + Sync + AllocGlobal>(
    rt: &R,
    folder: &mut MemFolder,
    write: u64,
    line: &str,
    text: &str,
) -> Result<(Status, bool), OutOfMemory> {
    let mut sink = MemSink::new(rt.alloc(), just(rt.alloc(), write)?);
    let ended = run_into(rt, folder, line, &mut sink)?;
    Ok((ended, sink.written() == text.as_bytes()))
}

// Runs the words over the files of both lists: the status, and whether the whole text is this one.
fn run_over_both<R: Threads + Sync + AllocGlobal>(
    rt: &R,
    base: Texts<'_>,
    more: Texts<'_>,
    line: &str,
    text: &str,
) -> Result<(Status, bool), OutOfMemory> {
    let mut folder = folder_of_both(rt.alloc(), base, more)?;
    run_to(rt, &mut folder, line, text)
}

// Runs the words over the files of both lists, and compares the status and the whole text.
fn expect_run<R: Abort + Threads + Sync + AllocGlobal>(
    rt: &R,
    base: Texts<'_>,
    more: Texts<'_>,
    words: &str,
    (status, text): (Status, &str),
) {
    let got = run_over_both(rt, base, more, words, text);
    assert!(rt;
        got == Ok((status, true)),
        "{words:?} over {base:?} and {more:?}: {got:?}"
    );
}

// Makes each run over the base.
fn expect_cases<R: Abort + Threads + Sync + AllocGlobal>(
    rt: &R,
    base: Texts<'_>,
    cases: &[Case<'_>],
) {
    for case in cases {
        expect_run(rt, base, case.more, case.words, (case.status, case.text));
    }
}

// Runs the words of each row over the files, and compares the status, which is the same for all, and the whole text.
fn expect_texts<R: Abort + Threads + Sync + AllocGlobal>(
    rt: &R,
    files: Texts<'_>,
    status: Status,
    cases: &[(&str, &str)],
) {
    for (words, text) in cases {
        expect_run(rt, files, &[], words, (status, *text));
    }
}

// Runs each of these words over the files of both lists, and compares the status and the whole text, which are the same for all.
fn expect_alike<R: Abort + Threads + Sync + AllocGlobal>(
    rt: &R,
    base: Texts<'_>,
    more: Texts<'_>,
    lines: &[&str],
    due: (Status, &str),
) {
    for line in lines {
        expect_run(rt, base, more, line, due);
    }
}

// Runs the words over the base and each of these lists of files, and compares the status and the whole text of each row.
fn expect_over_each<R: Abort + Threads + Sync + AllocGlobal>(
    rt: &R,
    base: Texts<'_>,
    words: &str,
    status: Status,
    rows: &[(Texts<'_>, &str)],
) {
    for (more, text) in rows {
        expect_run(rt, base, more, words, (status, *text));
    }
}

// Runs the trip over the base with this text of the file, and compares the status and the whole text.
fn expect_trip<R: Abort + Threads + Sync + AllocGlobal>(
    rt: &R,
    base: Texts<'_>,
    (file, text): (&str, &str),
    status: Status,
    report: &str,
) {
    let path = format!(in rt.alloc(); "d/{file}").expect(rt, "memory");
    expect_run(rt, base, &[(path.as_str(), text)], TRIP, (status, report));
}

// Runs the trip over the base with each text of this file, and compares the report.
fn expect_reports<R: Abort + Threads + Sync + AllocGlobal>(
    rt: &R,
    base: Texts<'_>,
    file: &str,
    texts: &[&str],
    report: &str,
) {
    for text in texts {
        expect_trip(rt, base, (file, *text), Status::Done, report);
    }
}

// Runs the trip over the base with this text of the file, which is refused at this line or record with this cause.
fn expect_refusal<R: Abort + Threads + Sync + AllocGlobal>(
    rt: &R,
    base: Texts<'_>,
    (file, text): (&str, &str),
    fault: &str,
) {
    let refusal = format!(in rt.alloc(); "refused input {file} {fault}\n").expect(rt, "memory");
    expect_trip(rt, base, (file, text), Status::BadInput, refusal.as_str());
}

// Runs the trip over the base with each text of this file, which is refused at this line or record with this cause.
fn expect_refusals<R: Abort + Threads + Sync + AllocGlobal>(
    rt: &R,
    base: Texts<'_>,
    file: &str,
    cases: &[(&str, &str)],
) {
    for (text, fault) in cases {
        expect_refusal(rt, base, (file, *text), fault);
    }
}
