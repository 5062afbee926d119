// The four files of a drawn network.
ghost use Rattle.std.specs.Prelude.{◌≡◌, ◌≤◌, ◌*◌, IfOk};
ghost use Rattle.net_generator.specs.Generated.{graph_file, closures_file, parking_file, ratings_file};
ghost use Rattle.net_generator.specs.declared.limits.TheConstants.{LAST_NUMBER, MOST_GENERATED_NODES};

use crate::draws::Draws;
use crate::layout::{self, Grid};
use crate::texts;
use route_base::{FileBytes, OutOfMemory};
use std::alloc::Global;

/// The bytes of the files `graph.gr`, `closures.csv`, `parking.csv` and `ratings.csv`.
#[derive(Drop)]
pub struct Generated {
    pub graph: FileBytes,
    pub closures: FileBytes,
    pub parking: FileBytes,
    pub ratings: FileBytes,
}

/// The files of the network of these rows and columns that is drawn from a number.
///
/// Roads of 20 to 60 minutes join neighbours both ways; about one arc in ten is closed once, for 1 to 25 hours that begin within the ten
/// days from 2020-07-04T00:00Z; about one node in eight has a parking area of one of three ratings. Linear in the nodes, in time and
/// memory.
pub fn generate(
    alloc: Global,
    number: u64,
    rows: u32,
    columns: u32,
) -> Result<Generated, OutOfMemory>
    requires number { number ≤ LAST_NUMBER }
    requires columns { 1 ≤ columns }
    requires nodes { rows * columns ≤ MOST_GENERATED_NODES }
    ensures graph { IfOk result (λ files. files.graph ≡ graph_file number rows columns) }
    ensures closures { IfOk result (λ files. files.closures ≡ closures_file number rows columns) }
    ensures parking { IfOk result (λ files. files.parking ≡ parking_file number rows columns) }
    ensures ratings { IfOk result (λ files. files.ratings ≡ ratings_file) }
{
    let grid = Grid { rows, columns };
    let mut draws = Draws::after(number);
    let roads = layout::draw_roads(alloc, &mut draws, grid)?;
    let graph = texts::graph(alloc, number, grid, roads.as_slice())?;
    let closures = layout::draw_closures(alloc, &mut draws, roads.len())?;
    let parking = layout::draw_parking(alloc, &mut draws, grid.nodes())?;
    Ok(Generated {
        graph: FileBytes::from_vec(graph),
        closures: FileBytes::from_vec(texts::closures(alloc, closures.as_slice())?),
        parking: FileBytes::from_vec(texts::parking(alloc, parking.as_slice())?),
        ratings: FileBytes::from_vec(Vec::from_slice(
            alloc,
            b"rating,weight\na,0.500\nb,1.000\nc,2.500\n",
        )?),
    })
}
