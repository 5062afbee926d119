// Whole files and the lists, each with memory to spare.
ghost use Rattle.std.specs.Prelude.{◌≤◌};

use super::{NETWORK, TRIP, TWO_PAIRS, Texts, expect_whole, is_text, run_to, sure_folder};
use route_base::{
    Bound, Bounds, DripFolder, Folder, Listing, NodeId, OutOfMemory, ReadAllFault, Status,
    SureFolder,
};
use std::alloc::Global;
use std::process::Abort;
use std::thread::Threads;

const SHORT: Texts<'static> = &[("abc", "abc"), ("empty", "")];

// Files, limits, and the results of reading.
const READ: &[(&str, u64, Result<&str, ReadAllFault>)] = &[
    ("abc", 3, Ok("abc")),
    ("abc", 4, Ok("abc")),
    ("abc", 2, Err(ReadAllFault::TooLong)),
    ("abc", 0, Err(ReadAllFault::TooLong)),
    ("empty", 0, Ok("")),
    ("ab", 3, Err(ReadAllFault::Missing)),
];

#[test]
fn reads_whole_files(rt: HostRuntime) {
    let mut folder = sure_folder(rt.alloc(), SHORT).expect(&rt, "memory");
    for (name, limit, want) in READ {
        expect_whole(&rt, &mut folder, name, *limit, *want);
    }
}

// A text of 200,000 letters.
fn long_text(alloc: Global) -> Result<String, OutOfMemory> {
    let mut text = String::new(alloc);
    for i in 0..200_000u32 {
        text.push((b'a' + (i % 26) as u8) as char)?;
    }
    Ok(text)
}

// Whether the file abc is there with its name as its text, and the file ab isn't.
fn has_abc_alone(folder: &SureFolder) -> bool {
    is_text(folder.contents("abc"), "abc") && folder.contents("ab").is_none()
}

// Writes the text of 200,000 letters, and reads it whole and with a limit below its length.
fn expect_long<R: Abort + AllocGlobal>(rt: &R, folder: &mut SureFolder, text: &str) {
    let written = folder.write_file("long", text.as_bytes()).is_ok();
    assert!(rt; written && has_abc_alone(folder));
    expect_whole(rt, folder, "long", 200_000, Ok(text));
    expect_whole(rt, folder, "long", 199_999, Err(ReadAllFault::TooLong));
}

#[test]
fn reads_files_of_several_parts(rt: HostRuntime) {
    let mut folder = sure_folder(rt.alloc(), &[("abc", "abc")]).expect(&rt, "memory");
    let long = long_text(rt.alloc()).expect(&rt, "memory");
    expect_long(&rt, &mut folder, long.as_str());
}

// Plans the trip over files of which at most this many bytes come at once: the status, and whether the text is the answer.
fn plan_in_drops<R: Threads + Sync + AllocGlobal>(
    rt: &R,
    most: usize,
) -> Result<(Status, bool), OutOfMemory>
    requires { 1 ≤ most }
{
    let mut folder = DripFolder::new(sure_folder(rt.alloc(), NETWORK)?, most);
    run_to(rt, &mut folder, TRIP, TWO_PAIRS)
}

#[test]
fn plans_over_files_that_come_in_drops(rt: HostRuntime) {
    for most in 1..8 {
        let got = plan_in_drops(&rt, most);
        assert!(rt; got == Ok((Status::Done, true)), "{most} at once: {got:?}");
    }
}

// The list of the numbers 7 and 9.
fn two_numbers(alloc: Global) -> Result<Listing<u64>, OutOfMemory> {
    let mut items = Listing::new(alloc);
    items.push(7u64)?;
    items.push(9)?;
    Ok(items)
}

// Whether the list has two numbers, of which the second is 9, and nothing after them.
fn has_two_numbers(items: &Listing<u64>) -> bool {
    items.len() == 2 && items.get(1) == Some(&9) && items.get(2) == None
}

const FAR: Bound = Bound {
    minutes: 60,
    cost: 60_000,
};

// The bounds of two nodes, of which the first has none.
fn two_bounds(alloc: Global) -> Result<Bounds, OutOfMemory> {
    let mut bounds = Bounds::new(alloc);
    bounds.push(None)?;
    bounds.push(Some(FAR))?;
    Ok(bounds)
}

// Nodes, and their bounds.
const BOUNDS: &[(u32, Option<Bound>)] = &[(0, None), (1, None), (2, Some(FAR)), (3, None)];

// The first of the nodes whose bound is another one.
fn wrong_node(bounds: &Bounds) -> Option<u32> {
    for (node, bound) in BOUNDS {
        if bounds.get(NodeId(*node)) != *bound {
            return Some(*node);
        }
    }
    None
}

#[test]
fn lists_grow(rt: HostRuntime) {
    let items = two_numbers(rt.alloc()).expect(&rt, "memory");
    assert!(rt; has_two_numbers(&items));
    let bounds = two_bounds(rt.alloc()).expect(&rt, "memory");
    let wrong = wrong_node(&bounds);
    assert!(rt; wrong == None, "node {wrong:?}");
}
