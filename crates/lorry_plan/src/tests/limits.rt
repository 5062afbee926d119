// The limits of tables.
use super::{TRIP, expect_end, put_files, run_to, sure_folder};
use route_base::{OutOfMemory, Status, SureFolder};
use std::alloc::Global;
use std::fmt::Write;
use std::thread::Threads;

const ARC: &str = "p sp 500000 1\na 1 2 60\n";

// A table with a row for each number from `start` up to, but not including, `end`, between the texts `before` and `after`.
#[derive(Clone, Copy)]
struct Table<'a> {
    path: &'a str,
    header: &'a str,
    before: &'a str,
    start: u64,
    end: u64,
    after: &'a str,
}

// Tables that have as many rows as there may be.
const CLOSURES: Table<'static> = Table {
    path: "d/closures.csv",
    header: "arc,from,to",
    before: "1,525600,",
    start: 600_000,
    end: 700_000,
    after: "",
};

const RATINGS: Table<'static> = Table {
    path: "d/ratings.csv",
    header: "rating,weight",
    before: "",
    start: 1,
    end: 1_001,
    after: ",2",
};

const PARKING: Table<'static> = Table {
    path: "d/parking.csv",
    header: "node,rating",
    before: "",
    start: 1,
    end: 500_001,
    after: ",1",
};

// As many stops at node 1 as there may be, each of which has to be served at once.
const STOPS: Table<'static> = Table {
    path: "d/s.csv",
    header: "node,service,from,to",
    before: "1,1,26563680,",
    start: 26_563_681,
    end: 26_563_731,
    after: "",
};

const TOUR: &str = "tour d any 1 2 26563680 26564080 s.csv";

const FIFTY: &str =
    "pairs 1\npair 26563790 60.000\nserve 1\nserve 2\nserve 3\nserve 4\nserve 5\nserve 6\nserve 7\nserve 8\nserve 9\nserve 10\nserve 11\nserve 12\nserve 13\nserve 14\nserve 15\nserve 16\nserve 17\nserve 18\nserve 19\nserve 20\nserve 21\nserve 22\nserve 23\nserve 24\nserve 25\nserve 26\nserve 27\nserve 28\nserve 29\nserve 30\nserve 31\nserve 32\nserve 33\nserve 34\nserve 35\nserve 36\nserve 37\nserve 38\nserve 39\nserve 40\nserve 41\nserve 42\nserve 43\nserve 44\nserve 45\nserve 46\nserve 47\nserve 48\nserve 49\nserve 50\ndrive 1\n";

// A graph of two arcs, and one of whose nodes and arcs 51 layers have just too many.
const SMALL: Table<'static> = Table {
    path: "d/graph.gr",
    header: "p sp 3 2",
    before: "a 1 2 ",
    start: 60,
    end: 62,
    after: "",
};

const WIDE: Table<'static> = Table {
    path: "d/graph.gr",
    header: "p sp 500000 284314",
    before: "a ",
    start: 1,
    end: 284_315,
    after: " 499999 60",
};

// Pushes the rows of the table.
fn push_rows(text: &mut String, table: Table<'_>) -> Result<(), OutOfMemory> {
    let Table { before, after, .. } = table;
    for number in table.start..table.end {
        write!(text, "\n{before}{number}{after}")?;
    }
    Ok(())
}

// The text of the table, and these rows after its own.
fn text_of(alloc: Global, table: Table<'_>, more: &str) -> Result<String, OutOfMemory> {
    let mut text = String::from_str(alloc, table.header)?;
    push_rows(&mut text, table)?;
    text.push_str(more)?;
    Ok(text)
}

// Puts the table into the folder, with these rows after its own.
fn put_table(
    alloc: Global,
    folder: &mut SureFolder,
    table: Table<'_>,
    more: &str,
) -> Result<(), OutOfMemory> {
    let text = text_of(alloc, table, more)?;
    put_files(folder, &[(table.path, text.as_str())])
}

// Tables, each with rows after its own.
type Tables<'a> = &'a [(Table<'a>, &'a str)];

// A folder of a graph with one arc and of these tables.
fn folder_with(alloc: Global, tables: Tables<'_>) -> Result<SureFolder, OutOfMemory> {
    let mut folder = sure_folder(alloc, &[("d/graph.gr", ARC)])?;
    for (table, more) in tables {
        put_table(alloc, &mut folder, *table, more)?;
    }
    Ok(folder)
}

// Tables, words, and the status and the text that are due.
const CASES: &[(Tables<'static>, &str, Status, &str)] = &[
    (
        &[(CLOSURES, ""), (RATINGS, ""), (PARKING, "")],
        "plan d any 0 2 26563680 26564080",
        Status::BadRequest,
        "refused request OriginRange\n",
    ),
    // A row more is refused, but for a fault of its own that stands before.
    (
        &[(CLOSURES, "\n1,525600,525601")],
        TRIP,
        Status::BadInput,
        "refused input closures.csv 100002 SizeLimit\n",
    ),
    (
        &[(RATINGS, "\nr s,x")],
        TRIP,
        Status::BadInput,
        "refused input ratings.csv 1002 SizeLimit\n",
    ),
    (
        &[(RATINGS, "\nr")],
        TRIP,
        Status::BadInput,
        "refused input ratings.csv 1002 FieldCount\n",
    ),
    (
        &[(RATINGS, ""), (PARKING, "\n1,1")],
        TRIP,
        Status::BadInput,
        "refused input parking.csv 500002 SizeLimit\n",
    ),
    (&[(SMALL, ""), (STOPS, "")], TOUR, Status::Done, FIFTY),
    (
        &[(SMALL, ""), (STOPS, "\n1,1,26563680,26564080")],
        TOUR,
        Status::BadInput,
        "refused input stops 52 SizeLimit\n",
    ),
    (
        &[(WIDE, ""), (STOPS, "")],
        TOUR,
        Status::BadRequest,
        "refused request TooManyStates\n",
    ),
];

// Runs the words over the tables: the status, and whether the whole text is this one.
fn run_over_tables<R: Threads + Sync + AllocGlobal>(
    rt: &R,
    tables: Tables<'_>,
    line: &str,
    text: &str,
) -> Result<(Status, bool), OutOfMemory> {
    let mut folder = folder_with(rt.alloc(), tables)?;
    run_to(rt, &mut folder, line, text)
}

#[test]
fn limits_the_rows_of_tables(rt: HostRuntime) {
    for (tables, line, status, text) in CASES {
        expect_end(&rt, text, run_over_tables(&rt, tables, line, text), *status);
    }
}
