// Tables of jobs, planned on several workers.
use super::{GRAPH, NETWORK, Texts, expect_alike, expect_over_each};
use route_base::Status;

const BATCH: &str = "batch d jobs.csv";

// Three jobs: one that is planned, one of an unknown vehicle, and one without a way.
const JOBS: &str =
    "vehicle,from,to,depart,until\nany,1,3,26563680,26564080\nx,1,3,26563680,26564080\nany,3,1,26563680,26564080\n";

const ANSWERS: &str =
    "job 1\npairs 2\npair 26563920 360.000\ndrive 1\nwait 120\ndrive 2\npair 26563980 300.000\ndrive 3\njob 2\nrefused request UnknownVehicle\njob 3\npairs 0\n";

// The same command, on several numbers of workers.
const WORKERS: &[&str] = &[
    "batch d jobs.csv",
    "batch d jobs.csv --workers 1",
    "batch d jobs.csv --workers 2",
    "batch --workers=3 d jobs.csv",
    "batch d --workers 64 jobs.csv",
];

const THREE_JOBS: Texts<'static> = &[("d/jobs.csv", JOBS)];

#[test]
fn answers_jobs_in_their_order(rt: HostRuntime) {
    expect_alike(&rt, NETWORK, THREE_JOBS, WORKERS, (Status::Done, ANSWERS));
}

const FAILING: &[(Texts<'static>, &str)] = &[(
    &[(
        "d/jobs.csv",
        "vehicle,from,to,depart,until\nx,0,4,26563680,26563679\nany,0,4,26563680,26563679\nany,1,4,26563680,26563679\nany,1,3,26563680,26563679\nany,1,3,26563680,26650081\nany,1,1,26563680,26563680\n",
    )],
    "job 1\nrefused request UnknownVehicle\njob 2\nrefused request OriginRange\njob 3\nrefused request GoalRange\njob 4\nrefused request UntilBeforeDepart\njob 5\nrefused request HorizonTooLong\njob 6\npairs 1\npair 26563680 0.000\n",
)];

#[test]
fn answers_each_check_that_a_job_fails(rt: HostRuntime) {
    expect_over_each(&rt, GRAPH, BATCH, Status::Done, FAILING);
}

// An arc that is closed to the heavy one of two vehicles, and three jobs of theirs.
const VEHICLES: Texts<'static> = &[
    ("d/graph.gr", "p sp 2 1\na 1 2 60\n"),
    (
        "d/vehicles.csv",
        "name,class,weight_kg,axleload_kg,height_cm,width_cm,length_cm,axles,purpose,flags\nlight,hgv,7500,,,,,,,\nheavy,hgv,7501,,,,,,,\n",
    ),
    (
        "d/rules.csv",
        "scope,key,value\narc:1,hgv:conditional,no @ (weight>7.5)\n",
    ),
    (
        "d/jobs.csv",
        "vehicle,from,to,depart,until\nlight,1,2,26563680,26563800\nheavy,1,2,26563680,26563800\nlight,1,2,26563690,26563800\n",
    ),
];

const OF_EACH: &str =
    "job 1\npairs 1\npair 26563740 60.000\ndrive 1\njob 2\npairs 0\njob 3\npairs 1\npair 26563750 60.000\ndrive 1\n";

const ONE_OR_THREE: &[&str] = &[
    "batch d jobs.csv --workers 1",
    "batch d jobs.csv --workers 3",
];

#[test]
fn plans_each_job_for_its_own_vehicle(rt: HostRuntime) {
    expect_alike(&rt, VEHICLES, &[], ONE_OR_THREE, (Status::Done, OF_EACH));
}

// Tables of jobs that are refused.
const REFUSED: &[(Texts<'static>, &str)] = &[
    (
        &[("d/jobs.csv", "from,to,depart,until\n")],
        "refused input jobs 1 BadHeader\n",
    ),
    (
        &[(
            "d/jobs.csv",
            "vehicle,from,to,depart,until\nany,1,3,26563680\n",
        )],
        "refused input jobs 2 FieldCount\n",
    ),
    (
        &[(
            "d/jobs.csv",
            "vehicle,from,to,depart,until\n,1,3,26563680,26564080\n",
        )],
        "refused input jobs 2 BadField\n",
    ),
    (
        &[(
            "d/jobs.csv",
            "vehicle,from,to,depart,until\nany,1,4294967296,26563680,26564080\n",
        )],
        "refused input jobs 2 BadField\n",
    ),
    (
        &[(
            "d/jobs.csv",
            "vehicle,from,to,depart,until\nany,1,3,26563680,26564080\nany,1,3,026563680,26564080\n",
        )],
        "refused input jobs 3 BadField\n",
    ),
];

#[test]
fn refuses_a_table_of_jobs_by_its_first_fault(rt: HostRuntime) {
    expect_over_each(&rt, NETWORK, BATCH, Status::BadInput, REFUSED);
}

const MISSING: &str = "refused input jobs 0 Missing\n";

const HEADER: &str = "refused input closures.csv 1 BadHeader\n";

// Tables without jobs, over the graph.
const NO_JOBS: &[(Texts<'static>, &str)] = &[
    (&[("d/jobs.csv", "vehicle,from,to,depart,until\n")], ""),
    (&[("d/jobs.csv", "")], ""),
];

// No table of jobs, and a table that has a fault itself.
const NO_TABLE: &[(Texts<'static>, &str)] = &[
    (&[], MISSING),
    (&[("d/closures.csv", "x")], MISSING),
    (&[("d/closures.csv", "x"), ("d/jobs.csv", "x")], HEADER),
];

#[test]
fn takes_no_jobs_and_finds_the_networks_faults_first(rt: HostRuntime) {
    expect_over_each(&rt, GRAPH, BATCH, Status::Done, NO_JOBS);
    expect_over_each(&rt, GRAPH, BATCH, Status::BadInput, NO_TABLE);
}
