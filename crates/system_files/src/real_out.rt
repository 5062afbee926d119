// The standard output. The bytes that it took aren't told, so nothing is proved of them: this is the trusted edge.
ghost use Rattle.std.specs.Prelude.{◌≡◌, OnOk};
ghost use Rattle.route_base.specs.SinkState.{Appends, AppendsPrefix, StaysSilent, FaultsRise, FailedToAppend};
ghost use Rattle.system_files.specs.Untold.{sink_with, after_append};

use route_base::{Sink, WriteError};
use std::io::{self, ErrorKind};
use std::marker::Model;

/// The output that a runtime prints to, and the number of its faults so far.
#[derive(Drop)]
pub struct RealOut<'a, R: Print> {
    out: &'a R,
    faults: u64,
}

impl<'a, R: Print> Model for RealOut<'a, R> {
    ghost use Rattle.std.specs.Prelude.{ℕ};

    ghost Value = { ℕ };

    ghost view = { λ o. o.faults };
}

impl<'a, R: Print> RealOut<'a, R> {
    /// The output; no fault is counted yet.
    pub fn new(out: &'a R) -> Self
        ensures { result ≡ 0 }
    {
        RealOut { out, faults: 0 }
    }
}

// Writes all bytes. A write that takes nothing, and an interrupted call, are errors.
fn write_whole<R: Print>(out: &R, bytes: &[u8]) -> io::Result<()> {
    let mut rest = bytes;
    'writing: while !rest.is_empty() {
        let count = out.write_some(rest)?;
        if count == 0 {
            return Err(io::Error::from(ErrorKind::WriteZero));
        }
        rest = &rest[count..];
    }
    Ok(())
}

impl<R: Print> Sink for RealOut<'_, R> {
    ghost state = { sink_with };

    // Counts the fault that it answers, and nothing else.
    fn write(&mut self, bytes: &[u8]) -> Result<(), WriteError>
        ensures ok { OnOk result (Appends (sink_with self.old) (sink_with self.new) bytes.now) }
        ensures prefix { result ≡ Err WriteError.Failed
            → AppendsPrefix (sink_with self.old) (sink_with self.new) bytes.now }
        ensures no_memory { result ≡ Err WriteError.OutOfMemory
            → StaysSilent (sink_with self.old) (sink_with self.new) }
        ensures count { FaultsRise (sink_with self.old) (sink_with self.new) }
        ensures failed { result ≡ Err WriteError.Failed
            → FailedToAppend (sink_with self.old) (sink_with self.new) }
        ensures after { self.new ≡ after_append self.old result }
    {
        match write_whole(self.out, bytes) {
            Ok(()) => Ok(()),
            Err(_) => {
                self.faults = self.faults.saturating_add(1);
                Err(WriteError::Failed)
            }
        }
    }
}
