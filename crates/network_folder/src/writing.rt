// Writes files into a folder, one after another.
ghost use Rattle.std.specs.Prelude.{map, OnOk, IfErr};
ghost use Rattle.network_folder.specs.Words.{CountsRise, PutsFile, path_of, written_in, HoldsEach, FailsToPut, FailsToPutEach};

use crate::reading::path_to;
use route_base::{Folder, Text, WriteError};
use std::alloc::Global;

/// A file to write: its name below the folder, and its bytes.
#[derive(Clone, Copy)]
pub struct FileToWrite<'a> {
    pub name: &'a str,
    pub bytes: &'a [u8],
}

/// Writes a file below dir. After `Failed`, when the folder couldn't write it, its name may hold anything, and all else is as it was; after
/// `OutOfMemory` nothing has changed.
pub fn put_file<F: Folder>(
    alloc: Global,
    folder: &mut F,
    dir: &Text,
    file: FileToWrite<'_>,
) -> Result<(), WriteError>
    ensures written { OnOk result (PutsFile (F.state folder.old) (F.state folder.new)
        (path_of dir.now file.entry.name.now) file.entry.bytes.now) }
    ensures unwritten { IfErr result (FailsToPut (F.state folder.old) (F.state folder.new)
        (path_of dir.now file.entry.name.now)) }
    ensures counts { CountsRise (F.state folder.old) (F.state folder.new) }
{
    let Ok(path) = path_to(alloc, dir, file.name) else {
        return Err(WriteError::OutOfMemory);
    };
    folder.write_file(path.as_str(), file.bytes)
}

/// Writes these files below dir, one after another, up to the first that can't be written. After an error those before it are written. After
/// `Failed`, when the folder couldn't write it, its name may hold anything; after `OutOfMemory` it is as it was. All else is as it was.
pub fn put_each<F: Folder>(
    alloc: Global,
    folder: &mut F,
    dir: &Text,
    files: &[FileToWrite<'_>],
) -> Result<(), WriteError>
    ensures written { OnOk result (HoldsEach dir.now (map written_in files.now)
        (F.state folder.old).contents (F.state folder.new).contents) }
    ensures unwritten { IfErr result (FailsToPutEach (F.state folder.old) (F.state folder.new)
        dir.now (map written_in files.now)) }
    ensures counts { CountsRise (F.state folder.old) (F.state folder.new) }
{
    for file in files {
        put_file(alloc, folder, dir, *file)?;
    }
    Ok(())
}
