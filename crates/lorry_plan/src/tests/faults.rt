// Runs in which a call of the folder or of the sink fails.
use super::{
    Case, GRAPH, NETWORK, ONE_PAIR, TRIANGLE, TRIP, TWO_PAIRS, Texts, expect_whole, first_of,
    is_text, just, put_files, run_failing,
};
use route_base::{Folder, MemFolder, OutOfMemory, ReadAllFault, Status, WriteError};
use std::alloc::Global;
use std::process::Abort;
use std::thread::Threads;

// A folder with the first of these files, of which the call of this ordinal fails.
fn folder_to_fail(alloc: Global, files: Texts<'_>, ordinal: u64) -> Result<MemFolder, OutOfMemory> {
    let failing = just(alloc, ordinal)?;
    Ok(MemFolder::new(first_of(alloc, files)?, failing))
}

// A folder with these files, of which the call of this ordinal fails, counted after they are written.
fn failing_folder(alloc: Global, files: Texts<'_>, failing: u64) -> Result<MemFolder, OutOfMemory> {
    let ordinal = if failing == 0 {
        0
    } else {
        (files.len() as u64).saturating_add(failing)
    };
    let mut folder = folder_to_fail(alloc, files, ordinal)?;
    put_files(&mut folder, files)?;
    Ok(folder)
}

// Runs the words over the files, when the calls of these ordinals fail: the status, and whether the whole text is this one.
fn run_over_failing<R: Threads + Sync + AllocGlobal>(
    rt: &R,
    files: Texts<'_>,
    (read, write): (u64, u64),
    line: &str,
    text: &str,
) -> Result<(Status, bool), OutOfMemory> {
    let mut folder = failing_folder(rt.alloc(), files, read)?;
    run_failing(rt, &mut folder, write, line, text)
}

// The status and the text that are due when the calls of these ordinals fail, if this many calls read: a fault of reading,
// whatever becomes of writing, or one of writing the text, or those of the case.
fn due_where<'a>(calls: u8, case: Case<'a>, (read, write): (u64, u64)) -> (Status, &'a str) {
    if 1 <= read && read <= calls as u64 {
        (Status::ReadFault, "")
    } else if write == 1 {
        (Status::WriteFault, "")
    } else {
        (case.status, case.text)
    }
}

// Runs the case when the calls of these ordinals fail, and compares the status and the whole text.
fn expect_failing<R: Abort + Threads + Sync + AllocGlobal>(
    rt: &R,
    calls: u8,
    case: Case<'_>,
    failing: (u64, u64),
) {
    let (status, text) = due_where(calls, case, failing);
    let line = case.words;
    let got = run_over_failing(rt, case.more, failing, line, text);
    assert!(rt;
        got == Ok((status, true)),
        "{line:?}, failing at {failing:?}: {got:?}"
    );
}

// Runs the case when the writing call of this ordinal fails, and each call of reading in turn, or none, or the one after them.
fn expect_each_read<R: Abort + Threads + Sync + AllocGlobal>(
    rt: &R,
    calls: u8,
    case: Case<'_>,
    write: u64,
) {
    for read in 0..=calls as u64 + 1 {
        expect_failing(rt, calls, case, (read, write));
    }
}

// Checks that reading takes this many calls: each of them can fail, whatever becomes of writing, and no call comes after.
fn expect_calls<R: Abort + Threads + Sync + AllocGlobal>(rt: &R, calls: u8, case: Case<'_>) {
    for write in 0..=2 {
        expect_each_read(rt, calls, case, write);
    }
}

// Runs, and the number of calls that read. A file that is there is read in two calls, and one that isn't in one.
const READING: &[(u8, Case<'static>)] = &[
    (
        12,
        Case {
            more: GRAPH,
            words: TRIP,
            status: Status::Done,
            text: ONE_PAIR,
        },
    ),
    (
        15,
        Case {
            more: NETWORK,
            words: TRIP,
            status: Status::Done,
            text: TWO_PAIRS,
        },
    ),
    (
        15,
        Case {
            more: NETWORK,
            words: "plan d any 0 3 26563680 26564080",
            status: Status::BadRequest,
            text: "refused request OriginRange\n",
        },
    ),
    (
        1,
        Case {
            more: &[("e/graph.gr", TRIANGLE)],
            words: TRIP,
            status: Status::BadInput,
            text: "refused input graph.gr 0 Missing\n",
        },
    ),
    (
        13,
        Case {
            more: &[("d/graph.gr", TRIANGLE), ("d/closures.csv", "x")],
            words: TRIP,
            status: Status::BadInput,
            text: "refused input closures.csv 1 BadHeader\n",
        },
    ),
    (
        14,
        Case {
            more: &[("d/graph.gr", TRIANGLE), ("d/i.txt", "drive 3\n")],
            words: "explain d any 1 3 26563680 26564080 i.txt",
            status: Status::Done,
            text: "lawful 26563980 300.000\ndominated 26563800 120.000\n",
        },
    ),
    (
        14,
        Case {
            more: &[("d/graph.gr", TRIANGLE), ("d/i.txt", "drive 2\n")],
            words: "explain d any 1 3 26563680 26564080 i.txt",
            status: Status::Done,
            text: "unlawful 1 26563680 tail\n",
        },
    ),
    (
        13,
        Case {
            more: GRAPH,
            words: "explain d any 1 3 26563680 26564080 i.txt",
            status: Status::BadInput,
            text: "refused input itinerary 0 Missing\n",
        },
    ),
    (
        0,
        Case {
            more: NETWORK,
            words: "plan",
            status: Status::Usage,
            text: "refused usage\n",
        },
    ),
];

#[test]
fn tells_faults_of_reading_and_writing(rt: HostRuntime) {
    for (calls, case) in READING {
        expect_calls(&rt, *calls, *case);
    }
}

// Whether the file new is there with the text abc, and the file abc isn't.
fn has_new_alone(folder: &MemFolder) -> bool {
    is_text(folder.contents("new"), "abc") && folder.contents("abc").is_none()
}

// Whether the file new is written once, and the second time the call fails.
fn writes_once(folder: &mut MemFolder) -> bool {
    let first = folder.write_file("new", b"abc");
    let second = folder.write_file("new", b"other");
    first == Ok(()) && second == Err(WriteError::Failed)
}

// Reads over the folder, whose third call fails, and writes between.
fn expect_third_failing<R: Abort + AllocGlobal>(rt: &R, folder: &mut MemFolder) {
    expect_whole(rt, folder, "new", 3, Err(ReadAllFault::Missing));
    assert!(rt; writes_once(folder));
    expect_whole(rt, folder, "new", 3, Ok("abc"));
    expect_whole(rt, folder, "d/graph.gr", 99, Ok(TRIANGLE));
    assert!(rt; has_new_alone(folder));
}

#[test]
fn counts_calls_over_reading_and_writing(rt: HostRuntime) {
    let mut folder = failing_folder(rt.alloc(), GRAPH, 3).expect(&rt, "memory");
    expect_third_failing(&rt, &mut folder);
}

// Whether the file of the certificate begins and ends as that of the trip, if it's there.
fn certificate_in(folder: &MemFolder) -> Option<bool> {
    let bytes = folder.contents("d/c.cert")?;
    let begins = bytes.starts_with(b"lorry-certificate 1\npairs 2\n");
    Some(begins && bytes.ends_with(b"\nend\n"))
}

const CERTIFY: &str = "plan d any 1 3 26563680 26564080 --certificate c.cert";

// Certifies the trip when these calls fail: the status, whether nothing is printed, and, if the file is there, whether it's
// the certificate.
fn certify<R: Threads + Sync + AllocGlobal>(
    rt: &R,
    (read, write): (u64, u64),
) -> Result<(Status, bool, Option<bool>), OutOfMemory> {
    let mut folder = failing_folder(rt.alloc(), NETWORK, read)?;
    let (ended, silent) = run_failing(rt, &mut folder, write, CERTIFY, "")?;
    Ok((ended, silent, certificate_in(&folder)))
}

// Whether such an end of `certify` is due when these calls fail: fifteen calls read, and the sixteenth writes the
// certificate, of which nothing is known if it fails.
fn is_due((read, write): (u64, u64), (ended, silent, left): (Status, bool, Option<bool>)) -> bool {
    match (read, write) {
        (1..=15, 0) => ended == Status::ReadFault && silent && left == None,
        (16, 0) => ended == Status::WriteFault && silent,
        _ => ended == Status::WriteFault && silent && left == Some(true),
    }
}

// Certifies the trip when these calls fail.
fn expect_certified<R: Abort + Threads + Sync + AllocGlobal>(rt: &R, failing: (u64, u64)) {
    let got = certify(rt, failing).expect(rt, "memory");
    assert!(rt; is_due(failing, got), "failing at {failing:?}: {got:?}");
}

#[test]
fn leaves_certificates_whole_or_not_at_all(rt: HostRuntime) {
    for failing in 1..=16 {
        expect_certified(&rt, (failing, 0));
    }
    expect_certified(&rt, (0, 1));
}
