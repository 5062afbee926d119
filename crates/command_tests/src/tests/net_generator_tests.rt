// The files of two small networks.
ghost use Rattle.std.specs.Prelude.{◌≤◌};

use net_generator::{Generated, generate};
use route_base::FileBytes;
use std::alloc::Global;

// Whether the file has this text.
fn has_text(file: &FileBytes, text: &str) -> bool {
    file.as_slice() == text.as_bytes()
}

// The texts of a network's files, but for the ratings, which are always the same.
#[derive(Clone, Copy)]
struct Texts<'a> {
    graph: &'a str,
    closures: &'a str,
    parking: &'a str,
}

// Whether the files have these texts.
fn have_texts(files: &Generated, texts: Texts<'_>) -> bool {
    has_text(&files.graph, texts.graph)
        && has_text(&files.closures, texts.closures)
        && has_text(&files.parking, texts.parking)
        && has_text(&files.ratings, "rating,weight\na,0.500\nb,1.000\nc,2.500\n")
}

const ROAD: Texts<'static> = Texts {
    graph: "c lorry_plan 7 1 2\np sp 2 2\na 1 2 36\na 2 1 36\n",
    closures: "arc,from,to\n",
    parking: "node,rating\n",
};

// Drawn by a program of its own in another language.
const GRID: Texts<'static> = Texts {
    graph: "c lorry_plan 4 3 2\np sp 6 14\na 1 2 35\na 2 1 35\na 1 3 37\na 3 1 37\na 2 4 25\na 4 2 25\na 3 4 44\na 4 3 44\na 3 5 54\na 5 3 54\na 4 6 55\na 6 4 55\na 5 6 57\na 6 5 57\n",
    closures: "arc,from,to\n3,26568364,26569798\n",
    parking: "node,rating\n4,a\n",
};

// Whether the network of three rows at most and two columns that is drawn from a number has these texts.
fn draws(alloc: Global, number: u64, rows: u32, texts: Texts<'_>) -> bool
    requires number { number ≤ 7 }
    requires rows { rows ≤ 3 }
{
    match generate(alloc, number, rows, 2) {
        Ok(files) => have_texts(&files, texts),
        Err(_) => false,
    }
}

#[test]
fn draws_roads_closures_and_parking(rt: HostRuntime) {
    assert!(rt; draws(rt.alloc(), 7, 1, ROAD));
    assert!(rt; draws(rt.alloc(), 4, 3, GRID));
}
