// Certificates: written by a plan, and judged.
use super::{NETWORK, TWO_PAIRS, expect_over, expect_run, sure_folder};
use route_base::{Status, SureFolder};
use std::process::Abort;
use std::thread::Threads;

const CHECK: &str = "check d any 1 3 26563680 26564080 c.cert";

const CERTIFY: &str = "plan d any 1 3 26563680 26564080 --certificate c.cert";

// The three parts of a good certificate of the trip.
const PAIRS: &str =
    "pairs 2\npair 26563920 360000 3\ndrive 1\nwait 120\ndrive 2\npair 26563980 300000 1\ndrive 3\n";

const BOUNDS: &str = "bounds 3\nbound 1 120 120000\nbound 2 60 60000\nbound 3 0 0\n";

const PIECES: &str =
    "pieces 2\npiece 1 26563680 26563680 0 0\npiece 2 26563740 26563859 60000 2000\n";

const EXCHANGED: &str =
    "pairs 2\npair 26563980 300000 1\ndrive 3\npair 26563920 360000 3\ndrive 1\nwait 120\ndrive 2\n";

const CHEAPER: &str =
    "pairs 2\npair 26563920 359000 3\ndrive 1\nwait 120\ndrive 2\npair 26563980 300000 1\ndrive 3\n";

const ONE_PAIR: &str = "pairs 1\npair 26563920 360000 3\ndrive 1\nwait 120\ndrive 2\n";

const LONG_WAIT: &str =
    "pairs 2\npair 26563920 360000 3\ndrive 1\nwait 120968639\ndrive 2\npair 26563980 300000 1\ndrive 3\n";

// The parts of certificates, and the text of the verdict.
const JUDGED: &[(&str, &str, &str, &str, &str)] = &[
    (PAIRS, BOUNDS, PIECES, "end\n", "accepted 2\n"),
    (
        PAIRS,
        "bounds 3\nbound 1 0120 120000\nbound 2 60 60000\nbound 3 0 0\n",
        PIECES,
        "end\n",
        "rejected 0\n",
    ),
    (
        "pairs 4398046511104\n",
        BOUNDS,
        PIECES,
        "end\n",
        "rejected 0\n",
    ),
    (PAIRS, BOUNDS, PIECES, "", "rejected 0\n"),
    (PAIRS, BOUNDS, PIECES, "end", "rejected 0\n"),
    (PAIRS, BOUNDS, PIECES, "end\nend\n", "rejected 0\n"),
    (EXCHANGED, BOUNDS, PIECES, "end\n", "rejected 1\n"),
    (CHEAPER, BOUNDS, PIECES, "end\n", "rejected 2\n"),
    (LONG_WAIT, BOUNDS, PIECES, "end\n", "rejected 2\n"),
    (
        PAIRS,
        "bounds 3\nbound 1 121 120000\nbound 2 60 60000\nbound 3 0 0\n",
        PIECES,
        "end\n",
        "rejected 3\n",
    ),
    (
        PAIRS,
        "bounds 4\nbound 1 120 120000\nbound 2 60 60000\nbound 3 0 0\nbound 500000 0 0\n",
        PIECES,
        "end\n",
        "rejected 3\n",
    ),
    (
        PAIRS,
        BOUNDS,
        "pieces 1\npiece 2 26563740 26563859 60000 2000\n",
        "end\n",
        "rejected 4\n",
    ),
    (ONE_PAIR, BOUNDS, PIECES, "end\n", "rejected 5\n"),
    (
        PAIRS,
        BOUNDS,
        "pieces 1\npiece 1 26563680 26563680 0 0\n",
        "end\n",
        "rejected 5\n",
    ),
    (
        PAIRS,
        BOUNDS,
        "pieces 2\npiece 1 26563680 26563680 0 0\npiece 2 26563740 26563740 60000 0\n",
        "end\n",
        "rejected 5\n",
    ),
    (
        PAIRS,
        BOUNDS,
        "pieces 2\npiece 1 0 120968639 0 0\npiece 2 26563740 26563859 60000 2000\n",
        "end\n",
        "rejected 5\n",
    ),
    (
        PAIRS,
        BOUNDS,
        "pieces 3\npiece 1 26563680 26563680 0 0\npiece 2 26563740 26563859 60000 2000\npiece 3 26563970 26563970 100 0\n",
        "end\n",
        "rejected 6\n",
    ),
];

// Judges the certificate, and compares the text of the verdict and the status that goes with it.
fn expect_verdict<R: Abort + Threads + Sync + AllocGlobal>(rt: &R, certificate: &str, text: &str) {
    let status = if text.starts_with("accepted") {
        Status::Done
    } else {
        Status::Rejected
    };
    expect_run(
        rt,
        NETWORK,
        &[("d/c.cert", certificate)],
        CHECK,
        (status, text),
    );
}

#[test]
fn judges_certificates(rt: HostRuntime) {
    for (pairs, bounds, pieces, end, text) in JUDGED {
        let certificate = format!(in rt.alloc();
            "lorry-certificate 1\n{pairs}{bounds}{pieces}{end}"
        ).expect(&rt, "memory");
        expect_verdict(&rt, certificate.as_str(), text);
    }
}

// The certificate of one trip is none of another's, and the request is checked before the certificate is read.
const LATER: &str = "check d any 1 3 26563681 26564080 c.cert";

const ORIGIN: &str = "check d any 0 3 26563680 26564080 c.cert";

// A trip without a lawful itinerary has a certificate too.
const CERTIFY_NONE: &str = "plan d any 1 3 26563680 26563700 --certificate none.cert";

const CHECK_NONE: &str = "check d any 1 3 26563680 26563700 none.cert";

// Runs one after another over one folder.
const RUNS: &[(&str, Status, &str)] = &[
    (
        CHECK,
        Status::BadInput,
        "refused input certificate 0 Missing\n",
    ),
    (CERTIFY, Status::Done, TWO_PAIRS),
    (CHECK, Status::Done, "accepted 2\n"),
    (LATER, Status::Rejected, "rejected 2\n"),
    (ORIGIN, Status::BadRequest, "refused request OriginRange\n"),
    (CERTIFY_NONE, Status::Done, "pairs 0\n"),
    (CHECK_NONE, Status::Done, "accepted 0\n"),
];

// Makes these runs over the folder, and compares each status and whole text.
fn expect_runs<R: Abort + Threads + Sync + AllocGlobal>(rt: &R, folder: &mut SureFolder) {
    for (line, status, text) in RUNS {
        expect_over(rt, folder, line, (*status, *text));
    }
}

#[test]
fn accepts_what_a_plan_certifies(rt: HostRuntime) {
    let mut folder = sure_folder(rt.alloc(), NETWORK).expect(&rt, "memory");
    expect_runs(&rt, &mut folder);
}
