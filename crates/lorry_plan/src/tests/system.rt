// The edge to the system: the real files and the real output.
use super::expect_whole;
use route_base::{Folder, ReadAllFault, Sink, WriteError};
use std::cell::Cell;
use std::fmt::Display;
use std::io::{self, ErrorKind};
use std::process::Abort;
use std::rt::Files;
use std::test::Fail;
use std::{env, fs, process};
use system_files::{RealFolder, RealOut};

// The name of the directory of temporary files.
fn temp_name(rt: &HostRuntime) -> Result<String, Fail> {
    let parent = env::temp_dir(rt)?;
    let name = parent.to_str().ok_or("no text")?;
    Ok(String::from_str(rt.alloc(), name)?)
}

// The name of a file of this process in the directory.
fn file_name(rt: &HostRuntime, parent: &str) -> Result<String, Fail> {
    let id = process::id(rt.process());
    Ok(format!(in rt.alloc(); "{parent}/lorry_plan_{id}")?)
}

// Texts to write, if any, and the limit and the result of reading the file thereafter.
const STEPS: &[(Option<&str>, u64, Result<&str, ReadAllFault>)] = &[
    (None, 3, Err(ReadAllFault::Missing)),
    (Some("longer"), 6, Ok("longer")),
    (Some("abc"), 3, Ok("abc")),
    (None, 2, Err(ReadAllFault::TooLong)),
];

// Whether the text is written, if there's one.
fn is_written<F: Folder>(folder: &mut F, name: &str, text: Option<&str>) -> bool {
    match text {
        Some(text) => folder.write_file(name, text.as_bytes()) == Ok(()),
        None => true,
    }
}

// Writes the text to the file, if there's one, and reads it.
fn expect_step<R: Abort + AllocGlobal, F: Folder>(
    rt: &R,
    folder: &mut F,
    name: &str,
    text: Option<&str>,
    (limit, want): (u64, Result<&str, ReadAllFault>),
) {
    assert!(rt; is_written(folder, name, text), "{text:?}");
    expect_whole(rt, folder, name, limit, want);
}

// Writes a file of this name twice, and reads it before and after.
fn expect_steps<R: Abort + AllocGlobal, F: Folder>(rt: &R, folder: &mut F, name: &str) {
    for (text, limit, want) in STEPS {
        expect_step(rt, folder, name, *text, (*limit, *want));
    }
}

// Reads and writes a directory, which is no file.
fn expect_no_file<R: Abort + AllocGlobal, F: Folder>(rt: &R, folder: &mut F, name: &str) {
    expect_whole(rt, folder, name, 3, Err(ReadAllFault::Failed));
    let written = folder.write_file(name, b"abc");
    assert!(rt; written == Err(WriteError::Failed), "{written:?}");
}

// Writes a file of this directory, reads it and removes it, and takes the directory for a file.
fn expect_files<R: Abort + Files + AllocGlobal>(rt: &R, parent: &str, name: &str) {
    let mut folder = RealFolder::new(rt);
    expect_steps(rt, &mut folder, name);
    fs::remove_file(rt, name).expect(rt, "the file can be removed");
    expect_whole(rt, &mut folder, name, 3, Err(ReadAllFault::Missing));
    expect_no_file(rt, &mut folder, parent);
}

#[test]
fn writes_and_reads_real_files(rt: HostRuntime) -> Result<(), Fail> {
    let parent = temp_name(&rt)?;
    let name = file_name(&rt, parent.as_str())?;
    expect_files(&rt, parent.as_str(), name.as_str());
    Ok(())
}

// Takes bytes in pieces of at most this size as long as they are those that are left, and then none, or fails.
#[derive(Drop)]
struct Pieces<'a> {
    size: usize,
    left: Cell<&'a [u8]>,
    at_end: Option<ErrorKind>,
}

impl Print for Pieces<'_> {
    fn print<D: Display + Drop>(&self, _value: D) -> io::Result<()> {
        Err(io::Error::from(ErrorKind::Unsupported))
    }

    fn println<D: Display + Drop>(&self, _value: D) -> io::Result<()> {
        Err(io::Error::from(ErrorKind::Unsupported))
    }

    fn write_all(&self, _bytes: &[u8]) -> io::Result<()> {
        Err(io::Error::from(ErrorKind::Unsupported))
    }

    fn write_some(&self, bytes: &[u8]) -> io::Result<usize> {
        let left = self.left.get();
        let count = bytes.len().min(left.len()).min(self.size);
        if bytes[..count] != left[..count] {
            return Err(io::Error::from(ErrorKind::InvalidData));
        }
        match self.at_end {
            Some(kind) if count == 0 => Err(io::Error::from(kind)),
            _ => {
                self.left.set(&left[count..]);
                Ok(count)
            }
        }
    }
}

const DIGITS: &str = "0123456789";

const MOST: &str = "012345678";

const FAILED: Result<(), WriteError> = Err(WriteError::Failed);

// The sizes of the pieces that an output takes of the digits, all that it takes, its error after them, and the result.
const OUTPUTS: &[(usize, &str, Option<ErrorKind>, Result<(), WriteError>)] = &[
    (3, DIGITS, None, Ok(())),
    (1, DIGITS, Some(ErrorKind::BrokenPipe), Ok(())),
    (10, DIGITS, None, Ok(())),
    (3, MOST, None, FAILED),
    (3, MOST, Some(ErrorKind::BrokenPipe), FAILED),
    (3, "", Some(ErrorKind::Interrupted), FAILED),
];

// Writes the digits to an output that takes these pieces: the result, and whether all of them are taken.
fn write_in_pieces(
    size: usize,
    taken: &str,
    at_end: Option<ErrorKind>,
) -> (Result<(), WriteError>, bool) {
    let pieces = Pieces {
        size,
        left: Cell::new(taken.as_bytes()),
        at_end,
    };
    let written = RealOut::new(&pieces).write(DIGITS.as_bytes());
    (written, pieces.left.get().is_empty())
}

// Whether the real output takes a line and an empty text.
fn prints<R: Print>(rt: &R) -> bool {
    let mut out = RealOut::new(rt);
    out.write(b"written\n") == Ok(()) && out.write(b"") == Ok(())
}

#[test]
fn writes_to_a_real_output(rt: HostRuntime) {
    for (size, taken, at_end, want) in OUTPUTS {
        let (written, whole) = write_in_pieces(*size, taken, *at_end);
        assert!(rt;
            written == *want && whole,
            "{taken:?} in pieces of {size}: {written:?}"
        );
    }
    assert!(rt; prints(&rt));
}
