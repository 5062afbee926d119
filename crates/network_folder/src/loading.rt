// Reads the network of a folder.
ghost use Rattle.std.specs.Prelude.{◌≡◌, None, IfOk, OnOk, IfErr};
ghost use Rattle.network_folder.specs.Words.{KeepsFiles, IfTold, StopsReading, StopsStating, bytes_at, file_in};
ghost use Rattle.network_folder.specs.Words.{contents_fault, network_in_files, first_folder_fault, first_fault_with, network_held};

use crate::reading::{read_files_with, read_network_files};
use crate::{FileToRead, LoadFault};
use network_tables::{Files, Network, NetworkFault, read_network};
use route_base::{FileBytes, Folder, Text};
use std::alloc::Global;

// The network that these files state.
fn network_of(alloc: Global, files: &Files) -> Result<Network, LoadFault>
    ensures found { IfOk result (λ network. network ≡ network_in_files files.now) }
    ensures faultless { OnOk result (contents_fault files.now ≡ None) }
    ensures refused { IfErr result (StopsStating (contents_fault files.now)) }
{
    match read_network(alloc, files) {
        Ok(network) => Ok(network),
        Err(NetworkFault::Bad(fault)) => Err(LoadFault::Bad(fault)),
        Err(NetworkFault::OutOfMemory) => Err(LoadFault::OutOfMemory),
    }
}

/// The network of the files of the folder dir. Linear in the bytes of the files, beside `read_network`.
///
/// `Bad` is the first fault: `Missing` for a graph that isn't there, or `TooLong` for a file beyond `LONGEST_FILE`, in the order in which
/// the files are read; if all could be read, that of `read_network`. `Failed` comes if the folder couldn't read a file, and
/// `OutOfMemory` if memory runs out.
pub fn load_network<F: Folder>(
    alloc: Global,
    folder: &mut F,
    dir: &Text,
) -> Result<Network, LoadFault>
    ensures faultless { OnOk result
        (IfTold (F.state folder.old) (λ held. first_folder_fault held dir.now ≡ None)) }
    ensures found { IfOk result (λ network.
        IfTold (F.state folder.old) (λ held. network ≡ network_held held dir.now)) }
    ensures refused { IfErr result (StopsReading (λ held. first_folder_fault held dir.now)
        (F.state folder.old) (F.state folder.new)) }
    ensures kept { KeepsFiles (F.state folder.old) (F.state folder.new) }
{
    let files = read_network_files(alloc, folder, dir)?;
    let network = network_of(alloc, &files)?;
    Ok(network)
}

/// The network of the files of the folder dir, and the bytes of one more file, which is read after them. It costs what `load_network`
/// costs, and the bytes of the file. It fails as `load_network` does, with the file as the last one that is read.
pub fn load_with<F: Folder>(
    alloc: Global,
    folder: &mut F,
    dir: &Text,
    last: FileToRead<'_>,
) -> Result<(Network, FileBytes), LoadFault>
    ensures faultless { OnOk result (IfTold (F.state folder.old)
        (λ held. first_fault_with (file_in last.entry) held dir.now ≡ None)) }
    ensures found { IfOk result (λ loaded.
        IfTold (F.state folder.old) (λ held. loaded.0 ≡ network_held held dir.now)) }
    ensures last { IfOk result (λ loaded. IfTold (F.state folder.old)
        (λ held. loaded.1 ≡ bytes_at held dir.now (file_in last.entry))) }
    ensures refused { IfErr result (StopsReading
        (λ held. first_fault_with (file_in last.entry) held dir.now)
        (F.state folder.old) (F.state folder.new)) }
    ensures kept { KeepsFiles (F.state folder.old) (F.state folder.new) }
{
    let (files, bytes) = read_files_with(alloc, folder, dir, last)?;
    let network = network_of(alloc, &files)?;
    Ok((network, bytes))
}
