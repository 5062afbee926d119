// How a run ends.
ghost use Rattle.std.specs.Prelude.{◌≡◌};

/// How a run of the program ends.
#[derive(Clone, Copy, Debug, PartialEq, Eq)]
pub enum Status {
    /// The command's text was written.
    Done,
    /// A certificate was judged, and isn't good.
    Rejected,
    /// The words aren't a command.
    Usage,
    /// A file has a fault.
    BadInput,
    /// Reading failed.
    ReadFault,
    /// Writing failed.
    WriteFault,
    /// Memory ran out.
    NoMemory,
    /// The request fails a test.
    BadRequest,
}

impl Status {
    ghost use Rattle.route_base.specs.Statuses.{code_of};

    /// The number with which the program ends.
    pub fn code(&self) -> u8
        ensures { result ≡ code_of self.now }
    {
        match self {
            Status::Done => 0,
            Status::Rejected => 1,
            Status::Usage => 2,
            Status::BadInput => 3,
            Status::ReadFault => 4,
            Status::WriteFault => 5,
            Status::NoMemory => 6,
            Status::BadRequest => 7,
        }
    }
}
