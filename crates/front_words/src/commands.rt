// The commands, with the values of their words; each has its struct in a file of its own.
ghost use Rattle.std.specs.Prelude.{◌≡◌};

use crate::{Bans, Batch, Breaks, Check, Explain, Gen, Latest, Plan, RestedTour, Tour};
use route_base::{Minute, OutOfMemory, Text};
use std::alloc::AllocFailed;

/// A trip of a vehicle from the node `origin` at `depart` to the node `goal`, by `until` at the latest. Nodes are numbered from 1, and minutes
/// are Unix minutes.
#[derive(Drop)]
pub struct Trip {
    pub vehicle: Text,
    pub origin: u32,
    pub goal: u32,
    pub depart: Minute,
    pub until: Minute,
}

/// A command with the values of its words, those of each command in a struct of its own.
#[derive(Drop)]
pub enum Invocation {
    Plan(Plan),
    Check(Check),
    Bans(Bans),
    Batch(Batch),
    Gen(Gen),
    Latest(Latest),
    Tour(Tour),
    RestedTour(RestedTour),
    Breaks(Breaks),
    Explain(Explain),
}

/// Why words give no command.
#[derive(Clone, Copy, Debug, PartialEq, Eq)]
pub enum WordsFault {
    /// The words are no command.
    NotACommand,
    /// Out of memory.
    OutOfMemory,
}

impl<T: Drop> From<AllocFailed<T>> for WordsFault {
    ghost use Rattle.front_words.specs.declared.commands.WordsFault.TheVariants.{OutOfMemory};

    ghost from_gives = { λ _ e. e ≡ OutOfMemory };

    fn from(_: AllocFailed<T>) -> Self {
        WordsFault::OutOfMemory
    }
}

impl From<OutOfMemory> for WordsFault {
    ghost use Rattle.front_words.specs.declared.commands.WordsFault.TheVariants.{OutOfMemory};

    ghost from_gives = { λ _ e. e ≡ OutOfMemory };

    fn from(_: OutOfMemory) -> Self {
        WordsFault::OutOfMemory
    }
}
