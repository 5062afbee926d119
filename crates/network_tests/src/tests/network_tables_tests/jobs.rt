// Tables of jobs: the worked one, a row in other forms, a fault for each cause, and the most rows.
use network_tables::limits::MOST_JOBS;
use network_tables::{Job, Jobs, read_jobs};
use route_base::{Cause, Minute, TableFault};
use std::alloc::Global;

const HEADER: &str = "vehicle,from,to,depart,until\n";

// The jobs that these rows state under the header.
fn jobs_of(alloc: Global, rows: &str) -> Result<Jobs, TableFault> {
    let text = format!(in alloc; "{HEADER}{rows}")?;
    read_jobs(alloc, text.as_bytes())
}

// The record that is refused and why.
fn fault_of(jobs: Result<Jobs, TableFault>) -> Option<(u64, Cause)> {
    match jobs {
        Err(TableFault::BadRow { row, cause }) => Some((row, cause)),
        _ => None,
    }
}

// The number of jobs, if they are read.
fn count_of(jobs: Result<Jobs, TableFault>) -> Option<usize> {
    match jobs {
        Ok(jobs) => Some(jobs.len()),
        Err(_) => None,
    }
}

// A job as it is due: the vehicle, the nodes and the minutes.
#[derive(Clone, Copy)]
struct Due {
    vehicle: &'static str,
    nodes: (u32, u32),
    minutes: (Minute, Minute),
}

impl Due {
    // Whether the job is this one.
    fn is(&self, job: &Job) -> bool {
        job.vehicle.as_slice() == self.vehicle.as_bytes()
            && (job.origin, job.goal) == self.nodes
            && (job.depart, job.until) == self.minutes
    }
}

// Whether the jobs are these, in this order.
fn are_due(jobs: &[Job], due: &[Due]) -> bool {
    jobs.len() == due.len() && jobs.iter().zip(due).all(|(job, due)| due.is(job))
}

// A trip there and back, and one by another vehicle.
const ROWS: &str =
    "any,1,3,26563680,26564080\nx,1,3,26563680,26564080\nany,3,1,26563680,26564080\n";

const DUE: [Due; 3] = [
    Due {
        vehicle: "any",
        nodes: (1, 3),
        minutes: (26_563_680, 26_564_080),
    },
    Due {
        vehicle: "x",
        nodes: (1, 3),
        minutes: (26_563_680, 26_564_080),
    },
    Due {
        vehicle: "any",
        nodes: (3, 1),
        minutes: (26_563_680, 26_564_080),
    },
];

// A row in other forms.
const OTHER_ROW: &str = "\"a.b\",0000000007,4294967295,2020-07-04T00:01:00Z,525600\r\n";

const OTHER_DUE: [Due; 1] = [Due {
    vehicle: "a.b",
    nodes: (7, u32::MAX),
    minutes: (26_563_681, 525_600),
}];

#[test]
fn reads_jobs_in_their_order(rt: HostRuntime) {
    let jobs = jobs_of(rt.alloc(), ROWS).expect(&rt, "jobs");
    assert!(rt; are_due(jobs.as_slice(), &DUE));
    let jobs = jobs_of(rt.alloc(), OTHER_ROW).expect(&rt, "a job");
    assert!(rt; are_due(jobs.as_slice(), &OTHER_DUE));
    assert!(rt; count_of(read_jobs(rt.alloc(), b"")) == Some(0));
}

// Rows that are refused: the record and the cause.
const BAD_ROWS: &[(&str, u64, Cause)] = &[
    ("any,1,3,26563680\n", 2, Cause::FieldCount),
    (",1,3,26563680,26564080\n", 2, Cause::BadField),
    ("-any,1,3,26563680,26564080\n", 2, Cause::BadField),
    ("any,,3,26563680,26564080\n", 2, Cause::BadField),
    ("any,1,4294967296,26563680,26564080\n", 2, Cause::BadField),
    ("any,1,00000000003,26563680,26564080\n", 2, Cause::BadField),
    ("any,1,3,525599,26564080\n", 2, Cause::BadField),
    ("any,1,3,26563680,026564080\n", 2, Cause::BadField),
    ("any,1,3,525600,525600\nany,1,3\n", 3, Cause::FieldCount),
    (
        "x,0,0,525600,525600\nx,0,-,525600,525600\n",
        3,
        Cause::BadField,
    ),
];

#[test]
fn refuses_jobs_with_their_first_fault(rt: HostRuntime) {
    let alloc = rt.alloc();
    for (rows, row, cause) in BAD_ROWS {
        let fault = fault_of(jobs_of(alloc, rows));
        assert!(rt; fault == Some((*row, *cause)), "{rows}");
    }
    let header = read_jobs(alloc, b"vehicle,from,to,until,depart\n");
    assert!(rt; fault_of(header) == Some((1, Cause::BadHeader)));
}

// The most jobs, which are all equal, and the jobs of these rows after them.
fn most_jobs_and(alloc: Global, rows: &str) -> Result<Jobs, TableFault> {
    let mut text = String::new(alloc);
    for _ in 0..MOST_JOBS {
        text.push_str("x,0,0,525600,525600\n")?;
    }
    text.push_str(rows)?;
    jobs_of(alloc, &text)
}

#[test]
fn reads_10000_jobs(rt: HostRuntime) {
    let alloc = rt.alloc();
    assert!(rt; count_of(most_jobs_and(alloc, "")) == Some(10_000));
    for (last, cause) in [("-\n", Cause::FieldCount), ("-,,,,\n", Cause::SizeLimit)] {
        let fault = fault_of(most_jobs_and(alloc, last));
        assert!(rt; fault == Some((10_002, cause)), "{last}");
    }
}
