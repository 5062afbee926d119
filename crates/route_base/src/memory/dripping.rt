// A folder in memory that gives its files in small parts.
ghost use Rattle.std.specs.Prelude.{◌≡◌, ◌≤◌, length, IfOk, OnOk};
ghost use Rattle.route_base.specs.MemoryFiles.{dripping_state, after_sure_read};
ghost use Rattle.route_base.specs.FolderState.{CountsRise, KeepsFiles, MissedFile, FailedToRead, FailedToWrite};
ghost use Rattle.route_base.specs.FolderState.{ReadsPart, LacksFile, PutsFile, SpoilsFile};
ghost use Rattle.route_base.specs.MemoryFiles.{held_in};

use crate::{Folder, PartError, SureFolder, WriteError};
use std::marker::Model;

/// A folder without failures that gives at most a fixed number of bytes in each call: so a caller is tried with short reads.
#[derive(Drop)]
pub struct DripFolder {
    inner: SureFolder,
    most: usize,
}

impl Model for DripFolder {
    ghost use Rattle.std.specs.Prelude.{◌≤◌};
    ghost use Rattle.route_base.specs.MemoryFiles.{DrippingFiles};

    ghost Value = { DrippingFiles };

    ghost view = { λ a. record { inner = a.inner; most = a.most } };

    ghost invariant = { λ a. 1 ≤ a.most };
}

impl DripFolder {
    /// This folder, which from now on gives at most `most` bytes in a call. At no cost.
    pub fn new(inner: SureFolder, most: usize) -> Self
        requires { 1 ≤ most }
        ensures { result ≡ record { inner = inner; most = most } }
    {
        DripFolder { inner, most }
    }
}

impl Folder for DripFolder {
    ghost state = { dripping_state };

    // Gives at most the fixed number of bytes.
    fn read_part(&mut self, name: &str, at: u64, buf: &mut [u8]) -> Result<usize, PartError>
        ensures bound { IfOk result (λ k. k ≤ length buf.new) }
        ensures few { IfOk result (λ k. k ≤ self.old.most) }
        ensures after { self.new
            ≡ record self.old { inner = after_sure_read self.old.inner result } }
        ensures kept { KeepsFiles (dripping_state self.old) (dripping_state self.new) }
        ensures part { IfOk result (λ k.
            ReadsPart (dripping_state self.old) name.now at k buf.new) }
        ensures not_there { result ≡ Err PartError.Missing
            → LacksFile (dripping_state self.old) name.now }
        ensures missing { result ≡ Err PartError.Missing
            → MissedFile (dripping_state self.old) (dripping_state self.new) }
        ensures failed { result ≡ Err PartError.Failed
            → FailedToRead (dripping_state self.old) (dripping_state self.new) }
    {
        let room = buf.len().min(self.most);
        self.inner.read_part(name, at, &mut buf[..room])
    }

    // Fails for want of memory alone.
    fn write_file(&mut self, name: &str, bytes: &[u8]) -> Result<(), WriteError>
        ensures ok { OnOk result
            (PutsFile (dripping_state self.old) (dripping_state self.new) name.now bytes.now) }
        ensures spoilt { result ≡ Err WriteError.Failed
            → SpoilsFile (dripping_state self.old) (dripping_state self.new) name.now }
        ensures no_memory { result ≡ Err WriteError.OutOfMemory
            → held_in self.new.inner.files ≡ held_in self.old.inner.files }
        ensures counts { CountsRise (dripping_state self.old) (dripping_state self.new) }
        ensures failed { result ≡ Err WriteError.Failed
            → FailedToWrite (dripping_state self.old) (dripping_state self.new) }
        ensures sure { result ≡ Err WriteError.Failed → ⊥ }
        ensures after { self.new
            ≡ record self.old { inner = record self.old.inner { files = self.new.inner.files } } }
    {
        self.inner.write_file(name, bytes)
    }
}
