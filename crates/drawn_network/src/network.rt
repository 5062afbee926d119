// The files of a drawn network, and the network.
ghost use Rattle.std.specs.Prelude.{◌≡◌, None, IfOk};
ghost use Rattle.net_generator.specs.Generated.{graph_file, closures_file, parking_file, ratings_file};
ghost use Rattle.net_generator.specs.Sizes.{IsDrawable};
ghost use Rattle.network_tables.specs.NetworkFiles.{contents_fault, network_in_files};
ghost use Rattle.drawn_network.specs.DrawnFiles.{drawn_files};

use crate::files::{draw_files, drawn_among};
use crate::laws;
use net_generator::Generated;
use network_tables::{Files, Network, NetworkFault, read_network};
use route_base::OutOfMemory;
use std::alloc::Global;

/// The bytes of the files that are drawn, and the network that they state.
#[derive(Drop)]
pub struct DrawnNetwork {
    pub files: Generated,
    pub network: Network,
}

// The network of files without a fault. Linear in the bytes.
fn read_good(alloc: Global, files: &Files) -> Result<Network, OutOfMemory>
    requires { contents_fault files.now ≡ None }
    ensures { IfOk result (λ network. network ≡ network_in_files files.now) }
{
    match read_network(alloc, files) {
        Ok(network) => Ok(network),
        Err(NetworkFault::Bad(_)) => unreachable!(),
        Err(NetworkFault::OutOfMemory) => Err(OutOfMemory),
    }
}

/// Draws the network of these rows and columns from a number: the bytes of `graph.gr`, `closures.csv`, `parking.csv` and
/// `ratings.csv`, and the network that they state beside tables that are empty. So all arcs lie in the area `default` of the zone UTC,
/// no rule bans a vehicle, and one may wait at parking areas alone.
///
/// `OutOfMemory` comes if a list can't grow; there is no other refusal. Linear in the nodes, in time and memory.
pub fn draw_network(
    alloc: Global,
    number: u64,
    rows: u32,
    columns: u32,
) -> Result<DrawnNetwork, OutOfMemory>
    requires { IsDrawable number rows columns }
    ensures graph { IfOk result (λ drawn. drawn.files.graph ≡ graph_file number rows columns) }
    ensures closures { IfOk result
        (λ drawn. drawn.files.closures ≡ closures_file number rows columns) }
    ensures parking { IfOk result (λ drawn. drawn.files.parking
        ≡ parking_file number rows columns) }
    ensures ratings { IfOk result (λ drawn. drawn.files.ratings ≡ ratings_file) }
    ensures network { IfOk result
        (λ drawn. drawn.network ≡ network_in_files (drawn_files number rows columns)) }
{
    laws::drawn_files_are_good();
    let files = draw_files(alloc, number, rows, columns)?;
    let network = read_good(alloc, &files)?;
    Ok(DrawnNetwork {
        files: drawn_among(alloc, files),
        network,
    })
}
