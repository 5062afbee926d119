// Reads whole files, part by part.
ghost use Rattle.std.specs.Prelude.{◌≡◌, ◌≤◌, ◌<◌, length, IfOk, IfSome};
ghost use Rattle.route_base.specs.WholeFile.{IsWhole};
ghost use Rattle.route_base.specs.FolderState.{KeepsFiles, MissedFile, FailedToRead};

use crate::{Folder, PartError};
use std::alloc::Global;

/// Why a whole file can't be read.
#[derive(Clone, Copy, Debug, PartialEq, Eq)]
pub enum ReadAllFault {
    /// No file has the name.
    Missing,
    /// The file is longer than the limit.
    TooLong,
    /// Reading failed.
    Failed,
    /// Out of memory.
    OutOfMemory,
}

// The number of bytes that is asked for at once.
const PART: usize = 65536;

/// Reads a file of at most `limit` bytes to its end. Linear in its length.
///
/// `Missing` comes where no file has the name, `TooLong` where it has more bytes than the limit, `Failed` where the folder couldn't read a
/// part, and `OutOfMemory` where memory runs out.
pub fn read_all<F: Folder>(
    alloc: Global,
    folder: &mut F,
    name: &str,
    limit: u64,
) -> Result<Vec<u8>, ReadAllFault>
    ensures whole { IfSome (F.state folder.old).contents (λ held.
        IsWhole (held name.now) limit result) }
    ensures within { IfOk result (λ v. length v.items ≤ limit) }
    ensures kept { KeepsFiles (F.state folder.old) (F.state folder.new) }
    ensures missing { result ≡ Err ReadAllFault.Missing
        → MissedFile (F.state folder.old) (F.state folder.new) }
    ensures failed { result ≡ Err ReadAllFault.Failed
        → FailedToRead (F.state folder.old) (F.state folder.new) }
{
    let mut all: Vec<u8> = Vec::new(alloc);
    let mut buf = [0u8; PART];
    'reading: while all.len() as u64 <= limit {
        match folder.read_part(name, all.len() as u64, &mut buf) {
            Ok(count) => {
                if count == 0 {
                    return Ok(all);
                }
                match all.extend_from_slice(&buf[..count]) {
                    Ok(()) => {}
                    Err(_) => return Err(ReadAllFault::OutOfMemory),
                }
            }
            Err(PartError::Missing) => return Err(ReadAllFault::Missing),
            Err(PartError::Failed) => return Err(ReadAllFault::Failed),
            Err(PartError::OutOfMemory) => return Err(ReadAllFault::OutOfMemory),
        }
    }
    Err(ReadAllFault::TooLong)
}
