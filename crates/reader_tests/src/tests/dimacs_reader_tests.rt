// Small graphs, the forms of their files, and a fault for each cause.
use dimacs_reader::{GraphArc, GraphFault, read_graph};
use route_base::{ArcId, Cause, Minute, NodeId};
use std::alloc::Global;
use std::process::Abort;

// A file, the numbers of its nodes and arcs, and the ends and the minutes of the last arc.
#[derive(Clone, Copy)]
struct Read<'a> {
    file: &'a str,
    nodes: u32,
    arcs: u32,
    last: (u32, u32, Minute),
}

// An arc of an hour between two nodes.
const HOUR: Read<'static> = Read {
    file: "p sp 2 1\na 1 2 60\n",
    nodes: 2,
    arcs: 1,
    last: (1, 2, 60),
};

const READ: &[Read<'static>] = &[
    Read {
        file: "p sp 3 3\na 1 2 60\na 2 3 60\na 1 3 300\n",
        nodes: 3,
        arcs: 3,
        last: (1, 3, 300),
    },
    Read {
        file: "c two nodes\n\np sp 2 1\nc one arc\na 1 2 60\n",
        ..HOUR
    },
    Read {
        file: "p sp 2 1\r\na 1 2 60\r\n\r\n",
        ..HOUR
    },
    Read {
        file: "p sp 2 1\na 1 2 60",
        ..HOUR
    },
    Read {
        file: " \tp  sp\t2 1 \n\ta\t1\t2\t60\t\n \t\n",
        ..HOUR
    },
    Read {
        file: "  comment\np sp 002 01\na 1 2 000000000000000060\n",
        ..HOUR
    },
];

// Whether the file is read as this graph.
fn is_read(alloc: Global, read: Read<'_>) -> bool {
    let (tail, head, minutes) = read.last;
    let last = GraphArc {
        tail: NodeId(tail),
        head: NodeId(head),
        minutes,
    };
    match read_graph(alloc, read.file.as_bytes()) {
        Ok(graph) => {
            graph.node_count() == read.nodes
                && graph.arc_count() == read.arcs
                && graph.arc(ArcId(read.arcs)) == Some(last)
                && graph.arc(ArcId(0)).is_none()
                && graph.arc(ArcId(read.arcs.saturating_add(1))).is_none()
        }
        Err(_) => false,
    }
}

#[test]
fn reads_what_the_format_allows(rt: HostRuntime) {
    for read in READ {
        assert!(rt; is_read(rt.alloc(), *read), "{}", read.file);
    }
}

// The line and the cause of a refusal, and files that are refused so.
const REFUSED: &[(u64, Cause, &[&str])] = &[
    (1, Cause::NoProblemLine, &["", "a 1 1 60\n"]),
    (3, Cause::NoProblemLine, &["c comment\n\n"]),
    (
        1,
        Cause::SizeLimit,
        &["p sp 0 0\n", "p sp 500001 0\n", "p sp 3 1000001\n"],
    ),
    (3, Cause::SecondProblemLine, &["p sp 3 0\n\np sp 0 0\n"]),
    (2, Cause::ArcCount, &["p sp 3 1\n"]),
    (3, Cause::NodeRange, &["p sp 3 2\na 1 2 60\na 1 4 60\n"]),
    (2, Cause::NodeRange, &["p sp 3 1\na 0 1 60\n"]),
    (3, Cause::ArcCount, &["p sp 3 2\na 1 2 60\n"]),
    (3, Cause::BadForm, &["p sp 3 2\na 1 2 60\na 1 3"]),
    (
        2,
        Cause::WeightRange,
        &["p sp 3 1\na 1 2 0\n", "p sp 3 1\na 1 2 10081\n"],
    ),
    (
        4,
        Cause::ArcCount,
        &["p sp 3 1\na 1 2 60\nc more\na 1 3 60\n"],
    ),
    (
        2,
        Cause::BadForm,
        &[
            "p sp 3 1\na 1 2 -1\n",
            "p sp 3 1\na 1 2 60 1\n",
            "p sp 3 1\na 1 2 0000000000000000060\n",
            "p sp 3 1\nb 1 2 60\n",
        ],
    ),
    (
        1,
        Cause::BadForm,
        &["p sp 1 0\r", "x\np sp 3 0\np sp 3 0\n"],
    ),
];

// Reads each file, and compares the fault.
fn expect_refused<R: Abort + AllocGlobal>(rt: &R, files: &[&str], due: GraphFault) {
    for file in files {
        let fault = read_graph(rt.alloc(), file.as_bytes()).err();
        assert!(rt; fault == Some(due), "{file}");
    }
}

#[test]
fn refuses_with_the_first_fault(rt: HostRuntime) {
    for (line, cause, files) in REFUSED {
        let (line, cause) = (*line, *cause);
        expect_refused(&rt, files, GraphFault::BadLine { line, cause });
    }
}
