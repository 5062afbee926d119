// The trait for the program's output. Each fault is counted, and is reported only when its count has gone up.
ghost use Rattle.std.specs.Prelude.{◌≡◌, OnOk};
ghost use Rattle.route_base.specs.SinkState.{SinkState, Appends, AppendsPrefix, StaysSilent, FaultsRise, FailedToAppend};

/// Why bytes can't be written.
#[derive(Clone, Copy, Debug, PartialEq, Eq)]
pub enum WriteError {
    /// Writing failed.
    Failed,
    /// Out of memory.
    OutOfMemory,
}

/// Where the program's text is written.
pub trait Sink {
    /// The bytes written so far, where the sink tells them, and how often a write failed.
    ghost state: { Self → SinkState };

    /// Writes a piece. After `Failed` a prefix of it was written; after `OutOfMemory` nothing was.
    fn write(&mut self, bytes: &[u8]) -> Result<(), WriteError>
        ensures ok { OnOk result (Appends (state self.old) (state self.new) bytes.now) }
        ensures prefix { result ≡ Err WriteError.Failed
            → AppendsPrefix (state self.old) (state self.new) bytes.now }
        ensures no_memory { result ≡ Err WriteError.OutOfMemory
            → StaysSilent (state self.old) (state self.new) }
        ensures count { FaultsRise (state self.old) (state self.new) }
        ensures failed { result ≡ Err WriteError.Failed
            → FailedToAppend (state self.old) (state self.new) };
}
