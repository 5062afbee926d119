// Reads the files of a folder one after another.
ghost use Rattle.std.specs.Prelude.{◌≡◌, ◌++◌, ◌∷◌, [], Some, None, IfOk, OnOk, IfErr, string_bytes};
ghost use Rattle.network_folder.specs.Words.{KeepsFiles, IfTold, path_of, whole_fault, fault_of_file, first_unreadable, file_in, IsRead};
ghost use Rattle.network_folder.specs.Words.{network_kinds, network_files, files_of, StopsReading, bytes_at};

use crate::LoadFault;
use crate::file_to_read::FileToRead;
use network_tables::Files;
use route_base::{
    BadInput, Cause, FileBytes, FileKind, Folder, OutOfMemory, ReadAllFault, Text, read_all,
};
use std::alloc::Global;

// The kinds of a network's files in the order in which they are read.
fn network_kinds() -> &'static [FileKind]
    ensures { result.now ≡ network_kinds }
{
    &[
        FileKind::Graph,
        FileKind::Zones,
        FileKind::Areas,
        FileKind::Roads,
        FileKind::Vehicles,
        FileKind::Rules,
        FileKind::Closures,
        FileKind::Ratings,
        FileKind::Parking,
        FileKind::Holidays,
        FileKind::Tolls,
    ]
}

/// The name under which the folder is asked for a file of dir.
pub fn path_to(alloc: Global, dir: &Text, name: &str) -> Result<String, OutOfMemory>
    ensures { IfOk result (λ path. string_bytes path ≡ path_of dir.now name.now) }
{
    let mut path = String::from_str(alloc, dir.as_str())?;
    path.push('/')?;
    path.push_str(name)?;
    Ok(path)
}

// Refuses a file as a whole.
fn refused(file: FileKind, cause: Cause) -> LoadFault
    ensures { result ≡ LoadFault.Bad (whole_fault file cause) }
{
    LoadFault::Bad(BadInput {
        file,
        row: 0,
        cause,
    })
}

// The bytes of a file; an empty list for a file that isn't there and needn't be.
fn read_file<F: Folder>(
    alloc: Global,
    folder: &mut F,
    dir: &Text,
    file: FileToRead<'_>,
) -> Result<FileBytes, LoadFault>
    ensures read { IfOk result (IsRead (F.state folder.old) dir.now (file_in file.entry)) }
    ensures refused { IfErr result (StopsReading
        (λ held. fault_of_file held dir.now (file_in file.entry))
        (F.state folder.old) (F.state folder.new)) }
    ensures kept { KeepsFiles (F.state folder.old) (F.state folder.new) }
{
    let path = path_to(alloc, dir, file.name)?;
    match read_all(alloc, folder, path.as_str(), file.limit) {
        Ok(bytes) => Ok(FileBytes::from_vec(bytes)),
        Err(ReadAllFault::Missing) => {
            if file.required {
                Err(refused(file.kind, Cause::Missing))
            } else {
                Ok(FileBytes::new(alloc))
            }
        }
        Err(ReadAllFault::TooLong) => Err(refused(file.kind, file.beyond)),
        Err(ReadAllFault::Failed) => Err(LoadFault::Failed),
        Err(ReadAllFault::OutOfMemory) => Err(LoadFault::OutOfMemory),
    }
}

/// The files of a network in the folder dir. Linear in the bytes.
pub fn read_network_files<F: Folder>(
    alloc: Global,
    folder: &mut F,
    dir: &Text,
) -> Result<Files, LoadFault>
    ensures read { IfOk result (λ files.
        IfTold (F.state folder.old) (λ held. files ≡ files_of held dir.now)) }
    ensures readable { OnOk result (IfTold (F.state folder.old)
        (λ held. first_unreadable held dir.now network_files ≡ None)) }
    ensures refused { IfErr result (StopsReading
        (λ held. first_unreadable held dir.now network_files)
        (F.state folder.old) (F.state folder.new)) }
    ensures kept { KeepsFiles (F.state folder.old) (F.state folder.new) }
{
    let mut files = Files::new(alloc);
    let kinds = network_kinds();
    for kind in kinds {
        let bytes = read_file(alloc, folder, dir, FileToRead::of_network(*kind))?;
        files.put(*kind, bytes);
    }
    Ok(files)
}

/// The files of a network in the folder dir, and the bytes of one more file, which is read after them. Linear in the bytes.
pub fn read_files_with<F: Folder>(
    alloc: Global,
    folder: &mut F,
    dir: &Text,
    last: FileToRead<'_>,
) -> Result<(Files, FileBytes), LoadFault>
    ensures files { IfOk result (λ read.
        IfTold (F.state folder.old) (λ held. read.0 ≡ files_of held dir.now)) }
    ensures last { IfOk result (λ read. IfTold (F.state folder.old)
        (λ held. read.1 ≡ bytes_at held dir.now (file_in last.entry))) }
    ensures readable { OnOk result (IfTold (F.state folder.old) (λ held.
        first_unreadable held dir.now (network_files ++ file_in last.entry ∷ []) ≡ None)) }
    ensures refused { IfErr result (StopsReading (λ held.
        first_unreadable held dir.now (network_files ++ file_in last.entry ∷ []))
        (F.state folder.old) (F.state folder.new)) }
    ensures kept { KeepsFiles (F.state folder.old) (F.state folder.new) }
{
    let files = read_network_files(alloc, folder, dir)?;
    let bytes = read_file(alloc, folder, dir, last)?;
    Ok((files, bytes))
}
