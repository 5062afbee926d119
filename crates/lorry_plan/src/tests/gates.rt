// Workers that are at work at once, seen by a gate at which each looks for others.
use super::{NETWORK, TRIP, Texts, folder_of_both, words_of};
use front_desk::run_gated;
use route_base::{Gate, OutOfMemory, Status, SureFolder, SureSink};
use std::process::Abort;
use std::sync::atomic::{AtomicU64, Ordering};
use std::thread::Threads;

// How often a worker looks for others before it goes on without them.
const MOST_LOOKS: u32 = 200_000_000;

// Lets workers pass when this many have come; counts those that have come, and those that looked for others in vain.
#[derive(Drop)]
struct Meeting {
    wanted: u64,
    come: AtomicU64,
    alone: AtomicU64,
}

impl Gate for Meeting {
    fn enter(&self, _job: usize) {
        self.come.fetch_add(1, Ordering::SeqCst);
        for _ in 0..MOST_LOOKS {
            if self.come.load(Ordering::SeqCst) >= self.wanted {
                return;
            }
        }
        self.alone.fetch_add(1, Ordering::SeqCst);
    }
}

// Runs the words over the folder and its workers past the gate, and writes to the sink.
fn run_past<R: Threads + Sync + AllocGlobal>(
    rt: &R,
    folder: &mut SureFolder,
    line: &str,
    sink: &mut SureSink,
    gate: &Meeting,
) -> Result<Status, OutOfMemory> {
    let words = words_of(rt.alloc(), line)?;
    Ok(run_gated(rt, rt.alloc(), words.as_slice(), folder, sink, gate))
}

// Runs the words over the folder and its workers past the gate: the status, and whether the whole text is this one.
fn run_to_meet<R: Threads + Sync + AllocGlobal>(
    rt: &R,
    folder: &mut SureFolder,
    line: &str,
    text: &str,
    gate: &Meeting,
) -> Result<(Status, bool), OutOfMemory> {
    let mut sink = SureSink::new(rt.alloc());
    let ended = run_past(rt, folder, line, &mut sink, gate)?;
    Ok((ended, sink.written() == text.as_bytes()))
}

// Runs the words over the network and these files, and the workers past the gate: the status, and whether the whole text is
// this one.
fn run_meeting<R: Threads + Sync + AllocGlobal>(
    rt: &R,
    more: Texts<'_>,
    line: &str,
    text: &str,
    gate: &Meeting,
) -> Result<(Status, bool), OutOfMemory> {
    let mut folder = folder_of_both(rt.alloc(), NETWORK, more)?;
    run_to_meet(rt, &mut folder, line, text, gate)
}

// Runs the words over the network and these files, past a gate where this many workers meet: the status, whether the whole text is
// this one, how many workers come, and how many of them are alone.
fn run_counted<R: Threads + Sync + AllocGlobal>(
    rt: &R,
    more: Texts<'_>,
    line: &str,
    text: &str,
    wanted: u64,
) -> Result<(Status, bool, u64, u64), OutOfMemory> {
    let gate = Meeting {
        wanted,
        come: AtomicU64::new(0),
        alone: AtomicU64::new(0),
    };
    let (ended, same) = run_meeting(rt, more, line, text, &gate)?;
    let come = gate.come.load(Ordering::SeqCst);
    Ok((ended, same, come, gate.alone.load(Ordering::SeqCst)))
}

// Whether the text is printed, at least this many workers come, and none of them is alone.
fn have_met(wanted: u64, (ended, same, come, alone): (Status, bool, u64, u64)) -> bool {
    ended == Status::Done && same && come >= wanted && alone == 0
}

// Runs the words over the network and these files, where this many workers meet.
fn expect_meeting<R: Abort + Threads + Sync + AllocGlobal>(
    rt: &R,
    more: Texts<'_>,
    line: &str,
    text: &str,
    wanted: u64,
) {
    let counted = run_counted(rt, more, line, text, wanted).expect(rt, "memory");
    assert!(rt;
        have_met(wanted, counted),
        "{line}: {counted:?} are status, text, parts, and parts one after another"
    );
}

// Files beside the network, words, their text, and the number of workers that meet.
type Meetings<'a> = &'a [(Texts<'a>, &'a str, &'a str, u64)];

fn expect_meetings<R: Abort + Threads + Sync + AllocGlobal>(rt: &R, rows: Meetings<'_>) {
    for (more, line, text, wanted) in rows {
        expect_meeting(rt, more, line, text, *wanted);
    }
}

const JOBS: Texts<'static> = &[(
    "d/jobs.csv",
    "vehicle,from,to,depart,until\nany,1,3,26563680,26564080\nany,1,2,26563680,26564080\n",
)];

const ANSWERS: &str =
    "job 1\npairs 2\npair 26563920 360.000\ndrive 1\nwait 120\ndrive 2\npair 26563980 300.000\ndrive 3\njob 2\npairs 1\npair 26563740 60.000\ndrive 1\n";

const THREE_JOBS: Texts<'static> = &[(
    "d/jobs.csv",
    "vehicle,from,to,depart,until\nany,1,2,26563680,26564080\nany,1,1,26563680,26564080\nany,3,1,26563680,26564080\n",
)];

const THREE_ANSWERS: &str =
    "job 1\npairs 1\npair 26563740 60.000\ndrive 1\njob 2\npairs 1\npair 26563680 0.000\njob 3\npairs 0\n";

const BATCHES: Meetings<'static> = &[
    (JOBS, "batch d jobs.csv --workers 2", ANSWERS, 2),
    (THREE_JOBS, "batch d jobs.csv --workers 3", THREE_ANSWERS, 3),
];

#[test]
fn plans_jobs_at_once(rt: HostRuntime) {
    expect_meetings(&rt, BATCHES);
}

const CLOSURES: Texts<'static> = &[(
    "d/closures.csv",
    "arc,from,to\n2,26563740,26563860\n1,26563700,26563710\n",
)];

const STRAIGHT: &str = "pairs 1\npair 26563980 300.000\ndrive 3\n";

const CERTIFICATE: Texts<'static> = &[(
    "d/c.cert",
    "lorry-certificate 1\npairs 2\npair 26563920 360000 3\ndrive 1\nwait 120\ndrive 2\npair 26563980 300000 1\ndrive 3\n\
    bounds 3\nbound 1 120 120000\nbound 2 60 60000\nbound 3 0 0\n\
    pieces 2\npiece 1 26563680 26563680 0 0\npiece 2 26563740 26563859 60000 2000\nend\n",
)];

// The drawn network has a closure of its third arc, too late for the trip that sums it up: over the nodes 2 and 4, in 35, 25 and 55 minutes.
const DRAWN: &str = "generated 6 14\npairs 1\nfirst 26563795 115.000\nlast 26563795 115.000\n";

// One command in each row, which closes arcs in two parts.
const EXPANSIONS: Meetings<'static> = &[
    (CLOSURES, TRIP, STRAIGHT, 2),
    (
        CERTIFICATE,
        "check d any 1 3 26563680 26564080 c.cert",
        "accepted 2\n",
        2,
    ),
    (&[], "gen e 4 3 2", DRAWN, 2),
    (
        &[],
        "latest d any 1 3 26563680 26564080",
        "pairs 1\nleave 26563960 120.000\ndrive 1\ndrive 2\n",
        2,
    ),
];

#[test]
fn makes_closed_minutes_at_once(rt: HostRuntime) {
    expect_meetings(&rt, EXPANSIONS);
}
