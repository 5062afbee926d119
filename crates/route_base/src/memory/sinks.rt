// Sinks in memory.
ghost use Rattle.std.specs.Prelude.{◌≡◌, ◌↔◌, [], List, ℕ, OnOk, Contains};
ghost use Rattle.route_base.specs.MemoryFiles.{sure_sink_state, failing_sink_state, next_ordinal, after_append};
ghost use Rattle.route_base.specs.SinkState.{Appends, AppendsPrefix, FaultsRise, FailedToAppend};

use crate::{Ordinals, Sink, WriteError};
use std::alloc::Global;
use std::marker::Model;

/// A sink that never fails, which contracts see as the bytes written.
#[derive(Drop)]
pub struct SureSink {
    bytes: Vec<u8>,
}

impl Model for SureSink {
    ghost Value = { List ℕ };

    ghost view = { λ a. a.bytes.items };
}

impl SureSink {
    /// A sink with nothing written.
    pub fn new(alloc: Global) -> Self
        ensures { result ≡ [] }
    {
        SureSink {
            bytes: Vec::new(alloc),
        }
    }

    /// The bytes written so far.
    pub fn written(&self) -> &[u8]
        ensures { result.now ≡ self.now }
    {
        self.bytes.as_slice()
    }
}

impl Sink for SureSink {
    ghost state = { sure_sink_state };

    fn write(&mut self, bytes: &[u8]) -> Result<(), WriteError> {
        match self.bytes.extend_from_slice(bytes) {
            Ok(()) => Ok(()),
            Err(_) => Err(WriteError::OutOfMemory),
        }
    }
}

/// A sink whose calls with given ordinals fail, counted from 1.
#[derive(Drop)]
pub struct MemSink {
    bytes: Vec<u8>,
    failing: Ordinals,
    calls: u64,
    faults: u64,
}

impl Model for MemSink {
    ghost use Rattle.route_base.specs.MemoryFiles.{FailingBytes};

    ghost Value = { FailingBytes };

    ghost view = { λ a. record { bytes = a.bytes.items; failing = a.failing; calls = a.calls; faults = a.faults } };
}

impl MemSink {
    /// A sink with nothing written, whose calls with these ordinals fail.
    pub fn new(alloc: Global, failing: Ordinals) -> Self
        ensures { result ≡ record { bytes = []; failing = failing; calls = 0; faults = 0 } }
    {
        MemSink {
            bytes: Vec::new(alloc),
            failing,
            calls: 0,
            faults: 0,
        }
    }

    /// The bytes written so far.
    pub fn written(&self) -> &[u8]
        ensures { result.now ≡ self.now.bytes }
    {
        self.bytes.as_slice()
    }
}

impl Sink for MemSink {
    ghost state = { failing_sink_state };

    // Fails exactly at the calls with the ordinals given, and writes nothing then.
    fn write(&mut self, bytes: &[u8]) -> Result<(), WriteError>
        ensures ok { OnOk result
            (Appends (failing_sink_state self.old) (failing_sink_state self.new) bytes.now) }
        ensures prefix { result ≡ Err WriteError.Failed
            → AppendsPrefix (failing_sink_state self.old) (failing_sink_state self.new) bytes.now }
        ensures silent { result ≡ Err WriteError.Failed → self.new.bytes ≡ self.old.bytes }
        ensures no_memory { result ≡ Err WriteError.OutOfMemory
            → self.new.bytes ≡ self.old.bytes }
        ensures count { FaultsRise (failing_sink_state self.old) (failing_sink_state self.new) }
        ensures failed { result ≡ Err WriteError.Failed
            → FailedToAppend (failing_sink_state self.old) (failing_sink_state self.new) }
        ensures fails { (result ≡ Err WriteError.Failed)
            ↔ Contains self.old.failing (next_ordinal self.old.calls) }
        ensures after { self.new
            ≡ record (after_append self.old result) { bytes = self.new.bytes } }
    {
        self.calls = self.calls.saturating_add(1);
        if self.failing.as_slice().contains(&self.calls) {
            self.faults = self.faults.saturating_add(1);
            return Err(WriteError::Failed);
        }
        match self.bytes.extend_from_slice(bytes) {
            Ok(()) => Ok(()),
            Err(_) => Err(WriteError::OutOfMemory),
        }
    }
}
