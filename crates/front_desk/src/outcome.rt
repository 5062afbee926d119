// Why a command ends without its text.
ghost use Rattle.std.specs.Prelude.{◌≡◌};
ghost use Rattle.front_desk.specs.Run.{status_of};
ghost use Rattle.front_desk.specs.Inside.Ending.{status_of_report};
ghost use Rattle.front_desk.specs.Inside.Planning.{too_many};

use network_folder::LoadFault;
use plan_report::Refusal;
use route_base::{OutOfMemory, RequestFault, Status, WriteError};

/// The status of a refusal.
pub fn status_of_refusal(refusal: Refusal) -> Status
    ensures { result ≡ status_of refusal }
{
    match refusal {
        Refusal::Usage => Status::Usage,
        Refusal::Input(_) => Status::BadInput,
        Refusal::Request(_) => Status::BadRequest,
    }
}

/// The text of a command that came to its end, and whether it rejects the file that the command judges.
#[derive(Drop)]
pub struct Report {
    pub text: Vec<u8>,
    pub rejects: bool,
}

impl Report {
    /// The status of the report.
    pub fn status(&self) -> Status
        ensures { result ≡ status_of_report self.now }
    {
        if self.rejects {
            Status::Rejected
        } else {
            Status::Done
        }
    }
}

/// Why a command ends before its text is there: it is refused, reading failed, writing a file failed, or memory ran out.
#[derive(Clone, Copy, Debug, PartialEq, Eq)]
pub enum Halt {
    Refused(Refusal),
    ReadFault,
    WriteFault,
    NoMemory,
}

/// The halt at a request that has too many states.
pub fn too_many_states() -> Halt
    ensures { result ≡ too_many }
{
    Halt::Refused(Refusal::Request(RequestFault::TooManyStates))
}

impl From<OutOfMemory> for Halt {
    ghost use Rattle.front_desk.specs.declared.outcome.Halt.TheVariants.{NoMemory};

    ghost from_gives = { λ _ e. e ≡ NoMemory };

    fn from(_: OutOfMemory) -> Self {
        Halt::NoMemory
    }
}

impl From<LoadFault> for Halt {
    ghost use Rattle.front_desk.specs.Inside.Ending.{halt_of_load};

    ghost from_gives = { λ fault halt. halt ≡ halt_of_load fault };

    fn from(fault: LoadFault) -> Self {
        match fault {
            LoadFault::Bad(fault) => Halt::Refused(Refusal::Input(fault)),
            LoadFault::Failed => Halt::ReadFault,
            LoadFault::OutOfMemory => Halt::NoMemory,
        }
    }
}

impl From<WriteError> for Halt {
    ghost use Rattle.front_desk.specs.Inside.Ending.{halt_of_write};

    ghost from_gives = { λ error halt. halt ≡ halt_of_write error };

    fn from(error: WriteError) -> Self {
        match error {
            WriteError::Failed => Halt::WriteFault,
            WriteError::OutOfMemory => Halt::NoMemory,
        }
    }
}
