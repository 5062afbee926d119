// The files of the system. No contract describes their contents, so nothing is proved of them: this is the trusted edge.
ghost use Rattle.std.specs.Prelude.{◌≡◌, ◌≤◌, length, IfOk, OnOk};
ghost use Rattle.route_base.specs.FolderState.{CountsRise, KeepsFiles, MissedFile, FailedToRead, FailedToWrite};
ghost use Rattle.route_base.specs.FolderState.{ReadsPart, LacksFile, PutsFile, SpoilsFile};
ghost use Rattle.system_files.specs.Untold.{no_faults, state_with, after_read, after_write};

use route_base::{Folder, PartError, WriteError};
use std::fs;
use std::io::{self, ErrorKind, Read, Seek, SeekFrom, Write};
use std::marker::Model;
use std::rt::Files;

/// The system's files by their paths, and the numbers of their faults so far.
#[derive(Drop)]
pub struct RealFolder<'a, R: Files> {
    files: &'a R,
    missing: u64,
    read_faults: u64,
    write_faults: u64,
}

impl<'a, R: Files> Model for RealFolder<'a, R> {
    ghost use Rattle.system_files.specs.Untold.{FaultCounts};

    ghost Value = { FaultCounts };

    ghost view = { λ f. record {
      missing = f.missing;
      read_faults = f.read_faults;
      write_faults = f.write_faults;
    } };
}

impl<'a, R: Files> RealFolder<'a, R> {
    /// The files; no fault is counted yet.
    pub fn new(files: &'a R) -> Self
        ensures { result ≡ no_faults }
    {
        RealFolder {
            files,
            missing: 0,
            read_faults: 0,
            write_faults: 0,
        }
    }
}

// Reads once from a place on. An interrupted call is an error like any other.
fn read_at<R: Files>(files: &R, name: &str, at: u64, buf: &mut [u8]) -> io::Result<usize>
    ensures { IfOk result (λ k. k ≤ length buf.new) }
{
    let mut file = fs::open(files, name)?;
    file.seek(SeekFrom::Start(at))?;
    file.read(buf)
}

// Writes all bytes to a new file. A write that takes nothing is an error.
fn write_whole<R: Files>(files: &R, name: &str, bytes: &[u8]) -> io::Result<()> {
    let mut file = fs::create(files, name)?;
    let mut rest = bytes;
    'writing: while !rest.is_empty() {
        let count = file.write(rest)?;
        if count == 0 {
            return Err(io::Error::from(ErrorKind::WriteZero));
        }
        rest = &rest[count..];
    }
    Ok(())
}

impl<R: Files> Folder for RealFolder<'_, R> {
    ghost state = { state_with };

    // Counts the fault that it answers, and nothing else.
    fn read_part(&mut self, name: &str, at: u64, buf: &mut [u8]) -> Result<usize, PartError>
        ensures bound { IfOk result (λ k. k ≤ length buf.new) }
        ensures kept { KeepsFiles (state_with self.old) (state_with self.new) }
        ensures part { IfOk result (λ k. ReadsPart (state_with self.old) name.now at k buf.new) }
        ensures not_there { result ≡ Err PartError.Missing
            → LacksFile (state_with self.old) name.now }
        ensures missing { result ≡ Err PartError.Missing
            → MissedFile (state_with self.old) (state_with self.new) }
        ensures failed { result ≡ Err PartError.Failed
            → FailedToRead (state_with self.old) (state_with self.new) }
        ensures after { self.new ≡ after_read self.old result }
    {
        match read_at(self.files, name, at, buf) {
            Ok(count) => Ok(count),
            Err(error) => {
                if error.kind() == ErrorKind::NotFound {
                    self.missing = self.missing.saturating_add(1);
                    Err(PartError::Missing)
                } else {
                    self.read_faults = self.read_faults.saturating_add(1);
                    Err(PartError::Failed)
                }
            }
        }
    }

    // Counts the fault that it answers, and nothing else.
    fn write_file(&mut self, name: &str, bytes: &[u8]) -> Result<(), WriteError>
        ensures ok { OnOk result
            (PutsFile (state_with self.old) (state_with self.new) name.now bytes.now) }
        ensures spoilt { result ≡ Err WriteError.Failed
            → SpoilsFile (state_with self.old) (state_with self.new) name.now }
        ensures counts { CountsRise (state_with self.old) (state_with self.new) }
        ensures failed { result ≡ Err WriteError.Failed
            → FailedToWrite (state_with self.old) (state_with self.new) }
        ensures after { self.new ≡ after_write self.old result }
    {
        match write_whole(self.files, name, bytes) {
            Ok(()) => Ok(()),
            Err(_) => {
                self.write_faults = self.write_faults.saturating_add(1);
                Err(WriteError::Failed)
            }
        }
    }
}
