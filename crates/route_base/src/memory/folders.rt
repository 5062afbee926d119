// Folders in memory.
ghost use Rattle.std.specs.Prelude.{◌≡◌, ◌≤◌, ◌↔◌, Some, None, [], length, OnOk, OnErr, IfOk, IfSome, IsTrue, Contains};
ghost use Rattle.route_base.specs.MemoryFiles.{held_in, uncalled_files, PutsUnder, sure_state, failing_state, next_ordinal};
ghost use Rattle.route_base.specs.MemoryFiles.{called, after_sure_read, after_read, after_write};
ghost use Rattle.route_base.specs.FolderState.{KeepsFiles, CountsRise, MissedFile, FailedToRead, FailedToWrite};
ghost use Rattle.route_base.specs.FolderState.{ReadsPart, LacksFile, PutsFile, SpoilsFile};
ghost use Rattle.route_base.specs.Contents.{GivesPart};

use crate::{Folder, Listing, OutOfMemory, PartError, Text, WriteError};
use std::alloc::Global;
use std::marker::Model;

/// A file: its name and its bytes.
#[derive(Drop)]
pub struct File {
    pub name: Text,
    pub bytes: Listing<u8>,
}

/// Files by name.
#[derive(Drop)]
pub struct FileList {
    alloc: Global,
    files: Vec<File>,
}

impl Model for FileList {
    ghost use Rattle.std.specs.Prelude.{List};
    ghost use Rattle.route_base.specs.declared.memory.folders.File.{File};

    ghost Value = { List File };

    ghost view = { λ a. a.files.items };
}

/// The ordinals, from 1, of the calls that are to fail.
pub type Ordinals = Listing<u64>;

// Finds the bytes under a name.
fn find<'a>(files: &'a [File], name: &str) -> Option<&'a [u8]>
    ensures found { IfSome result (λ bytes. held_in files.now name.now ≡ Some bytes.now) }
    ensures none { result ≡ None → held_in files.now name.now ≡ None }
{
    let mut rest = files;
    while let [file, after @ ..] = rest {
        if file.name.as_str() == name {
            return Some(file.bytes.as_slice());
        }
        rest = after;
    }
    None
}

// Puts a file before the others, so that it hides an earlier one of its name.
fn put(alloc: Global, files: &mut Vec<File>, name: &str, bytes: &[u8]) -> Result<(), OutOfMemory>
    ensures ok { OnOk result (PutsUnder files.old.items files.new.items name.now bytes.now) }
    ensures err { OnErr result (files.new.items ≡ files.old.items) }
{
    let file = File {
        name: Text::of(alloc, name)?,
        bytes: Listing::from_vec(Vec::from_slice(alloc, bytes)?),
    };
    files.insert(0, file)?;
    Ok(())
}

// The bytes of a file from a place on, as many as the buffer takes.
fn copy_part(bytes: &[u8], at: u64, buf: &mut [u8]) -> usize
    ensures within { result ≤ length buf.new }
    ensures part { GivesPart (Some bytes.now) at result buf.new }
{
    if at >= bytes.len() as u64 {
        return 0;
    }
    let rest = &bytes[at as usize..];
    let count = rest.len().min(buf.len());
    buf[..count].copy_from_slice(&rest[..count]);
    count
}

impl FileList {
    /// No files.
    pub fn new(alloc: Global) -> Self
        ensures { result ≡ [] }
    {
        FileList {
            alloc,
            files: Vec::new(alloc),
        }
    }

    /// Adds a file, whose name isn't there yet. Linear in its length and in the number of files.
    pub fn push(&mut self, name: &str, bytes: &[u8]) -> Result<(), OutOfMemory>
        requires { held_in self.old name.now ≡ None }
        ensures ok { OnOk result (PutsUnder self.old self.new name.now bytes.now) }
        ensures err { OnErr result (self.new ≡ self.old) }
    {
        self.set(name, bytes)
    }

    // Puts a file, in place of one of its name.
    fn set(&mut self, name: &str, bytes: &[u8]) -> Result<(), OutOfMemory>
        ensures ok { OnOk result (PutsUnder self.old self.new name.now bytes.now) }
        ensures err { OnErr result (self.new ≡ self.old) }
    {
        put(self.alloc, &mut self.files, name, bytes)
    }

    // Finds the bytes under a name.
    fn find(&self, name: &str) -> Option<&[u8]>
        ensures found { IfSome result (λ bytes. held_in self.now name.now ≡ Some bytes.now) }
        ensures none { result ≡ None → held_in self.now name.now ≡ None }
    {
        find(self.files.as_slice(), name)
    }
}

/// A folder without failures.
#[derive(Drop)]
pub struct SureFolder {
    files: FileList,
    missing: u64,
}

impl Model for SureFolder {
    ghost use Rattle.route_base.specs.MemoryFiles.{SureFiles};

    ghost Value = { SureFiles };

    ghost view = { λ a. record { files = a.files; missing = a.missing } };
}

impl SureFolder {
    /// A folder of these files, at no cost.
    pub fn new(files: FileList) -> Self
        ensures { result ≡ record { files = files; missing = 0 } }
    {
        SureFolder { files, missing: 0 }
    }

    /// The bytes under a name; `None` exactly where it isn't held. Linear in the number of files.
    pub fn contents(&self, name: &str) -> Option<&[u8]>
        ensures found { IfSome result (λ bytes.
            held_in self.now.files name.now ≡ Some bytes.now) }
        ensures none { result ≡ None → held_in self.now.files name.now ≡ None }
    {
        self.files.find(name)
    }
}

impl Folder for SureFolder {
    ghost state = { sure_state };

    // Counts missing files alone.
    fn read_part(&mut self, name: &str, at: u64, buf: &mut [u8]) -> Result<usize, PartError>
        ensures bound { IfOk result (λ k. k ≤ length buf.new) }
        ensures kept { KeepsFiles (sure_state self.old) (sure_state self.new) }
        ensures part { IfOk result (λ k. ReadsPart (sure_state self.old) name.now at k buf.new) }
        ensures not_there { result ≡ Err PartError.Missing
            → LacksFile (sure_state self.old) name.now }
        ensures missing { result ≡ Err PartError.Missing
            → MissedFile (sure_state self.old) (sure_state self.new) }
        ensures failed { result ≡ Err PartError.Failed
            → FailedToRead (sure_state self.old) (sure_state self.new) }
        ensures after { self.new ≡ after_sure_read self.old result }
    {
        match self.files.find(name) {
            Some(bytes) => Ok(copy_part(bytes, at, buf)),
            None => {
                self.missing = self.missing.saturating_add(1);
                Err(PartError::Missing)
            }
        }
    }

    // Fails for want of memory alone.
    fn write_file(&mut self, name: &str, bytes: &[u8]) -> Result<(), WriteError>
        ensures ok { OnOk result
            (PutsFile (sure_state self.old) (sure_state self.new) name.now bytes.now) }
        ensures spoilt { result ≡ Err WriteError.Failed
            → SpoilsFile (sure_state self.old) (sure_state self.new) name.now }
        ensures no_memory { result ≡ Err WriteError.OutOfMemory
            → held_in self.new.files ≡ held_in self.old.files }
        ensures counts { CountsRise (sure_state self.old) (sure_state self.new) }
        ensures failed { result ≡ Err WriteError.Failed
            → FailedToWrite (sure_state self.old) (sure_state self.new) }
        ensures sure { result ≡ Err WriteError.Failed → ⊥ }
        ensures after { self.new ≡ record self.old { files = self.new.files } }
    {
        match self.files.set(name, bytes) {
            Ok(()) => Ok(()),
            Err(OutOfMemory) => Err(WriteError::OutOfMemory),
        }
    }
}

/// A folder whose calls with given ordinals fail, counted from 1 over reading and writing.
pub struct MemFolder {
    files: FileList,
    failing: Ordinals,
    calls: u64,
    missing: u64,
    read_faults: u64,
    write_faults: u64,
}

impl Model for MemFolder {
    ghost use Rattle.route_base.specs.MemoryFiles.{FailingFiles};

    ghost Value = { FailingFiles };

    ghost view = { λ a. record { files = a.files; failing = a.failing; calls = a.calls; missing = a.missing; read_faults = a.read_faults; write_faults = a.write_faults } };
}

// By hand, so that the drops of its parts are proved here alone.
impl Drop for MemFolder {
    fn drop(self) {
        let MemFolder {
            files: _,
            failing: _,
            calls: _,
            missing: _,
            read_faults: _,
            write_faults: _,
        } = self;
    }
}

impl MemFolder {
    /// A folder of these files, whose calls with these ordinals fail.
    pub fn new(files: FileList, failing: Ordinals) -> Self
        ensures { result ≡ uncalled_files files failing }
    {
        MemFolder {
            files,
            failing,
            calls: 0,
            missing: 0,
            read_faults: 0,
            write_faults: 0,
        }
    }

    /// The bytes under a name; `None` exactly where it isn't held. Linear in the number of files.
    pub fn contents(&self, name: &str) -> Option<&[u8]>
        ensures found { IfSome result (λ bytes.
            held_in self.now.files name.now ≡ Some bytes.now) }
        ensures none { result ≡ None → held_in self.now.files name.now ≡ None }
    {
        self.files.find(name)
    }

    // Counts the call, and says whether it is to fail.
    fn fails(&mut self) -> bool
        ensures named { IsTrue result ↔ Contains self.old.failing (next_ordinal self.old.calls) }
        ensures counted { self.new ≡ called self.old }
    {
        self.calls = self.calls.saturating_add(1);
        self.failing.as_slice().contains(&self.calls)
    }
}

impl Folder for MemFolder {
    ghost state = { failing_state };

    // Fails exactly at the calls with the ordinals given.
    fn read_part(&mut self, name: &str, at: u64, buf: &mut [u8]) -> Result<usize, PartError>
        ensures bound { IfOk result (λ k. k ≤ length buf.new) }
        ensures kept { KeepsFiles (failing_state self.old) (failing_state self.new) }
        ensures part { IfOk result (λ k.
            ReadsPart (failing_state self.old) name.now at k buf.new) }
        ensures not_there { result ≡ Err PartError.Missing
            → LacksFile (failing_state self.old) name.now }
        ensures missing { result ≡ Err PartError.Missing
            → MissedFile (failing_state self.old) (failing_state self.new) }
        ensures failed { result ≡ Err PartError.Failed
            → FailedToRead (failing_state self.old) (failing_state self.new) }
        ensures fails { (result ≡ Err PartError.Failed)
            ↔ Contains self.old.failing (next_ordinal self.old.calls) }
        ensures after { self.new ≡ after_read self.old result }
    {
        if self.fails() {
            self.read_faults = self.read_faults.saturating_add(1);
            return Err(PartError::Failed);
        }
        match self.files.find(name) {
            Some(bytes) => Ok(copy_part(bytes, at, buf)),
            None => {
                self.missing = self.missing.saturating_add(1);
                Err(PartError::Missing)
            }
        }
    }

    // Fails exactly at the calls with the ordinals given.
    fn write_file(&mut self, name: &str, bytes: &[u8]) -> Result<(), WriteError>
        ensures ok { OnOk result
            (PutsFile (failing_state self.old) (failing_state self.new) name.now bytes.now) }
        ensures spoilt { result ≡ Err WriteError.Failed
            → SpoilsFile (failing_state self.old) (failing_state self.new) name.now }
        ensures no_memory { result ≡ Err WriteError.OutOfMemory
            → held_in self.new.files ≡ held_in self.old.files }
        ensures counts { CountsRise (failing_state self.old) (failing_state self.new) }
        ensures failed { result ≡ Err WriteError.Failed
            → FailedToWrite (failing_state self.old) (failing_state self.new) }
        ensures fails { (result ≡ Err WriteError.Failed)
            ↔ Contains self.old.failing (next_ordinal self.old.calls) }
        ensures after { self.new ≡ record (after_write self.old result) { files = self.new.files } }
    {
        if self.fails() {
            self.write_faults = self.write_faults.saturating_add(1);
            return Err(WriteError::Failed);
        }
        match self.files.set(name, bytes) {
            Ok(()) => Ok(()),
            Err(OutOfMemory) => Err(WriteError::OutOfMemory),
        }
    }
}
