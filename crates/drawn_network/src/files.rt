// Drawn files among the files of a network.
ghost use Rattle.std.specs.Prelude.{◌≡◌, IfOk};
ghost use Rattle.net_generator.specs.Sizes.{IsDrawable};
ghost use Rattle.drawn_network.specs.DrawnFiles.{drawn_files};

use net_generator::{Generated, generate};
use network_tables::Files;
use route_base::{FileBytes, OutOfMemory};
use std::alloc::Global;
use std::mem;

/// The drawn files, beside tables that are empty. Linear in the nodes.
pub fn draw_files(alloc: Global, number: u64, rows: u32, columns: u32) -> Result<Files, OutOfMemory>
    requires { IsDrawable number rows columns }
    ensures { IfOk result (λ files. files ≡ drawn_files number rows columns) }
{
    let drawn = generate(alloc, number, rows, columns)?;
    let mut files = Files::new(alloc);
    files.graph = drawn.graph;
    files.closures = drawn.closures;
    files.parking = drawn.parking;
    files.ratings = drawn.ratings;
    Ok(files)
}

/// The four drawn files among these. In constant time.
pub fn drawn_among(alloc: Global, mut files: Files) -> Generated
    ensures graph { result.graph ≡ files.graph }
    ensures closures { result.closures ≡ files.closures }
    ensures parking { result.parking ≡ files.parking }
    ensures ratings { result.ratings ≡ files.ratings }
{
    Generated {
        graph: mem::replace(&mut files.graph, FileBytes::new(alloc)),
        closures: mem::replace(&mut files.closures, FileBytes::new(alloc)),
        parking: mem::replace(&mut files.parking, FileBytes::new(alloc)),
        ratings: mem::replace(&mut files.ratings, FileBytes::new(alloc)),
    }
}
