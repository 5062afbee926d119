// The trait for the files that the program reads and writes. Each fault is counted, and is reported only when its count has gone up.
ghost use Rattle.std.specs.Prelude.{◌≡◌, ◌≤◌, length, IfOk, OnOk};
ghost use Rattle.route_base.specs.FolderState.{FolderState, CountsRise, KeepsFiles, MissedFile, FailedToRead, FailedToWrite};
ghost use Rattle.route_base.specs.FolderState.{ReadsPart, LacksFile, PutsFile, SpoilsFile};

use crate::WriteError;

/// Why a part of a file can't be read.
#[derive(Clone, Copy, Debug, PartialEq, Eq)]
pub enum PartError {
    /// No file has the name.
    Missing,
    /// Reading failed.
    Failed,
    /// Out of memory.
    OutOfMemory,
}

/// Named files that can be read in parts and written whole. No call but `write_file` changes what they hold.
pub trait Folder {
    /// What the folder holds, where it tells that, and how often its calls failed.
    ghost state: { Self → FolderState };

    /// Reads bytes of a file from a place on, and returns their number; 0 for a buffer that isn't empty is the file's end.
    /// After an error the buffer may hold anything.
    fn read_part(&mut self, name: &str, at: u64, buf: &mut [u8]) -> Result<usize, PartError>
        ensures bound { IfOk result (λ k. k ≤ length buf.new) }
        ensures kept { KeepsFiles (state self.old) (state self.new) }
        ensures part { IfOk result (λ k. ReadsPart (state self.old) name.now at k buf.new) }
        ensures not_there { result ≡ Err PartError.Missing
            → LacksFile (state self.old) name.now }
        ensures missing { result ≡ Err PartError.Missing
            → MissedFile (state self.old) (state self.new) }
        ensures failed { result ≡ Err PartError.Failed
            → FailedToRead (state self.old) (state self.new) };

    /// Puts a whole file under a name. After `Failed` the name may hold anything; after `OutOfMemory` nothing has changed.
    fn write_file(&mut self, name: &str, bytes: &[u8]) -> Result<(), WriteError>
        ensures ok { OnOk result (PutsFile (state self.old) (state self.new) name.now bytes.now) }
        ensures spoilt { result ≡ Err WriteError.Failed
            → SpoilsFile (state self.old) (state self.new) name.now }
        ensures no_memory { result ≡ Err WriteError.OutOfMemory
            → (state self.new).contents ≡ (state self.old).contents }
        ensures counts { CountsRise (state self.old) (state self.new) }
        ensures failed { result ≡ Err WriteError.Failed
            → FailedToWrite (state self.old) (state self.new) };
}
