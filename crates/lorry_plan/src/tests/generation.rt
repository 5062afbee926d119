// Networks that are drawn from a number.
use super::{Texts, expect_end, expect_over, is_text, just, run_failing, run_into, sure_folder};
use route_base::{FileList, MemFolder, OutOfMemory, Status, SureFolder, SureSink};
use std::process::Abort;
use std::thread::Threads;

const SMALL: &str = "generated 2 2\npairs 1\nfirst 26563716 36.000\nlast 26563716 36.000\n";

// The four files of the smallest network with a road, in the order in which they are written.
const FILES: Texts<'static> = &[
    (
        "d/graph.gr",
        "c lorry_plan 7 1 2\np sp 2 2\na 1 2 36\na 2 1 36\n",
    ),
    ("d/closures.csv", "arc,from,to\n"),
    ("d/parking.csv", "node,rating\n"),
    (
        "d/ratings.csv",
        "rating,weight\na,0.500\nb,1.000\nc,2.500\n",
    ),
];

// Files of the folder before: one that is written over, and one that is kept.
const OLD: Texts<'static> = &[("d/closures.csv", "x"), ("d/rules.csv", "kept")];

// Files of the folder after it.
const KEPT: Texts<'static> = &[("d/rules.csv", "kept")];

// Checks that the folder has all these files.
fn expect_files<R: Abort>(rt: &R, folder: &SureFolder, files: Texts<'_>) {
    for (name, text) in files {
        assert!(rt; is_text(folder.contents(name), text), "{name}");
    }
}

// Draws the smallest network into the folder, and checks what it holds.
fn expect_drawn<R: Abort + Threads + Sync + AllocGlobal>(rt: &R, folder: &mut SureFolder) {
    expect_over(rt, folder, "gen d 7 1 2", (Status::Done, SMALL));
    expect_files(rt, folder, FILES);
    expect_files(rt, folder, KEPT);
}

#[test]
fn writes_four_files_and_sums_up_a_trip(rt: HostRuntime) {
    let mut folder = sure_folder(rt.alloc(), OLD).expect(&rt, "memory");
    expect_drawn(&rt, &mut folder);
}

// Runs the words over the folder: the status, and whether the text begins with this one.
fn run_to_start<R: Threads + Sync + AllocGlobal>(
    rt: &R,
    folder: &mut SureFolder,
    line: &str,
    start: &str,
) -> Result<(Status, bool), OutOfMemory> {
    let mut sink = SureSink::new(rt.alloc());
    let ended = run_into(rt, folder, line, &mut sink)?;
    Ok((ended, sink.written().starts_with(start.as_bytes())))
}

// Words that run one after another over one folder, and the starts of their texts.
const STARTS: &[(&str, &str)] = &[
    ("gen d 4 3 2", "generated 6 14\n"),
    ("plan d any 1 6 26563680 26650080", "pairs 1\npair 2656"),
];

// Runs the words over the folder, and compares the start of the text.
fn expect_start<R: Abort + Threads + Sync + AllocGlobal>(
    rt: &R,
    folder: &mut SureFolder,
    line: &str,
    start: &str,
) {
    expect_end(
        rt,
        line,
        run_to_start(rt, folder, line, start),
        Status::Done,
    );
}

// Runs these words over the folder.
fn expect_starts<R: Abort + Threads + Sync + AllocGlobal>(rt: &R, folder: &mut SureFolder) {
    for (line, text) in STARTS {
        expect_start(rt, folder, line, text);
    }
}

#[test]
fn plans_over_the_files_that_it_wrote(rt: HostRuntime) {
    let mut folder = SureFolder::new(FileList::new(rt.alloc()));
    expect_starts(&rt, &mut folder);
}

// Whether the file is whole if it stands before that of the failing call, and isn't there if it comes after it.
fn is_left(bytes: Option<&[u8]>, text: &str, ordinal: u64, failing: u64) -> bool {
    (ordinal >= failing || is_text(bytes, text)) && (ordinal <= failing || bytes.is_none())
}

// The first file that isn't whole before that of the failing call, or is there after it.
fn wrong_file(folder: &MemFolder, failing: u64) -> Option<&'static str> {
    let mut ordinal: u64 = 1;
    for (name, text) in FILES {
        if !is_left(folder.contents(name), text, ordinal, failing) {
            return Some(*name);
        }
        ordinal = ordinal.saturating_add(1);
    }
    None
}

// Draws the smallest network when the writing of the file and of the summary with these ordinals fail: the status, whether
// nothing is printed, and the first file that isn't left as it has to be.
fn draw_failing<R: Threads + Sync + AllocGlobal>(
    rt: &R,
    file: u64,
    summary: u64,
) -> Result<(Status, bool, Option<&'static str>), OutOfMemory> {
    let failing = just(rt.alloc(), file)?;
    let mut folder = MemFolder::new(FileList::new(rt.alloc()), failing);
    let (ended, silent) = run_failing(rt, &mut folder, summary, "gen d 7 1 2", "")?;
    Ok((ended, silent, wrong_file(&folder, file)))
}

#[test]
fn leaves_the_files_before_a_failed_one(rt: HostRuntime) {
    for failing in 1..=4 {
        let got = draw_failing(&rt, failing, 0);
        assert!(rt;
            got == Ok((Status::WriteFault, true, None)),
            "failing at {failing}: {got:?}"
        );
    }
}

#[test]
fn keeps_the_files_where_the_summary_fails(rt: HostRuntime) {
    let got = draw_failing(&rt, 5, 1);
    assert!(rt; got == Ok((Status::WriteFault, true, None)), "{got:?}");
}
