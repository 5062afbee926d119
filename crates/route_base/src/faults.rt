// The causes for which an input or a request is refused, with their names.
ghost use Rattle.std.specs.Prelude.{◌≡◌};
ghost use Rattle.route_base.specs.declared.faults.TableFault.{TableFault};

use std::alloc::{AllocError, AllocFailed};

/// The fault of a file, or of one of its lines or rows.
#[derive(Clone, Copy, Debug, PartialEq, Eq)]
pub enum Cause {
    Missing,
    TooLong,
    NoProblemLine,
    SecondProblemLine,
    BadForm,
    NodeRange,
    WeightRange,
    ArcCount,
    SizeLimit,
    BadHeader,
    FieldCount,
    BadField,
    NotConditional,
    NotHours,
    Unknown,
    Duplicate,
    NotRising,
}

impl Cause {
    ghost use Rattle.route_base.specs.Labels.{cause_name_of};

    /// The name of the cause in a refusal.
    pub fn name(self) -> &'static str
        ensures { result.now ≡ cause_name_of self }
    {
        match self {
            Cause::Missing => "Missing",
            Cause::TooLong => "TooLong",
            Cause::NoProblemLine => "NoProblemLine",
            Cause::SecondProblemLine => "SecondProblemLine",
            Cause::BadForm => "BadForm",
            Cause::NodeRange => "NodeRange",
            Cause::WeightRange => "WeightRange",
            Cause::ArcCount => "ArcCount",
            Cause::SizeLimit => "SizeLimit",
            Cause::BadHeader => "BadHeader",
            Cause::FieldCount => "FieldCount",
            Cause::BadField => "BadField",
            Cause::NotConditional => "NotConditional",
            Cause::NotHours => "NotHours",
            Cause::Unknown => "Unknown",
            Cause::Duplicate => "Duplicate",
            Cause::NotRising => "NotRising",
        }
    }
}

/// The files of a folder in the order in which they are read, and then those that the words of a command may name.
#[derive(Clone, Copy, Debug, PartialEq, Eq)]
pub enum FileKind {
    Graph,
    Zones,
    Areas,
    Roads,
    Vehicles,
    Rules,
    Closures,
    Ratings,
    Parking,
    Holidays,
    Tolls,
    Jobs,
    Certificate,
    Stops,
    Itinerary,
}

impl FileKind {
    ghost use Rattle.route_base.specs.Labels.{label_of};

    /// The label of the file in a refusal: its name below the folder, but `jobs`, `certificate`, `stops` or `itinerary` for the file
    /// that the words of a command name.
    pub fn label(self) -> &'static str
        ensures { result.now ≡ label_of self }
    {
        match self {
            FileKind::Graph => "graph.gr",
            FileKind::Zones => "zones.csv",
            FileKind::Areas => "areas.csv",
            FileKind::Roads => "roads.csv",
            FileKind::Vehicles => "vehicles.csv",
            FileKind::Rules => "rules.csv",
            FileKind::Closures => "closures.csv",
            FileKind::Ratings => "ratings.csv",
            FileKind::Parking => "parking.csv",
            FileKind::Holidays => "holidays.csv",
            FileKind::Tolls => "tolls.csv",
            FileKind::Jobs => "jobs",
            FileKind::Certificate => "certificate",
            FileKind::Stops => "stops",
            FileKind::Itinerary => "itinerary",
        }
    }
}

/// A file's fault. The row is the number of the line or the record from 1, or 0 for the file as a whole.
#[derive(Clone, Copy, Debug, PartialEq, Eq)]
pub struct BadInput {
    pub file: FileKind,
    pub row: u64,
    pub cause: Cause,
}

/// The first check that a request fails, in the order of the variants.
#[derive(Clone, Copy, Debug, PartialEq, Eq)]
pub enum RequestFault {
    UnknownVehicle,
    UnknownArc,
    OriginRange,
    GoalRange,
    UntilBeforeDepart,
    HorizonTooLong,
    TooManyStates,
}

impl RequestFault {
    ghost use Rattle.route_base.specs.Labels.{request_fault_name_of};

    /// The name of the failed check in a refusal.
    pub fn name(self) -> &'static str
        ensures { result.now ≡ request_fault_name_of self }
    {
        match self {
            RequestFault::UnknownVehicle => "UnknownVehicle",
            RequestFault::UnknownArc => "UnknownArc",
            RequestFault::OriginRange => "OriginRange",
            RequestFault::GoalRange => "GoalRange",
            RequestFault::UntilBeforeDepart => "UntilBeforeDepart",
            RequestFault::HorizonTooLong => "HorizonTooLong",
            RequestFault::TooManyStates => "TooManyStates",
        }
    }
}

/// Out of memory.
#[derive(Clone, Copy, Debug, PartialEq, Eq)]
pub struct OutOfMemory;

impl From<AllocError> for OutOfMemory {
    fn from(_: AllocError) -> Self {
        OutOfMemory
    }
}

impl<T: Drop> From<AllocFailed<T>> for OutOfMemory {
    fn from(_: AllocFailed<T>) -> Self {
        OutOfMemory
    }
}

/// Why a table can't be read.
#[derive(Clone, Copy, Debug, PartialEq, Eq)]
pub enum TableFault {
    /// The first record that has a fault, and its cause; records are numbered from 1, and the header is record 1.
    BadRow { row: u64, cause: Cause },
    /// Out of memory.
    OutOfMemory,
}

impl From<AllocError> for TableFault {
    ghost from_gives = { λ _ e. e ≡ TableFault.OutOfMemory };

    fn from(_: AllocError) -> Self {
        TableFault::OutOfMemory
    }
}

impl<T: Drop> From<AllocFailed<T>> for TableFault {
    ghost from_gives = { λ _ e. e ≡ TableFault.OutOfMemory };

    fn from(_: AllocFailed<T>) -> Self {
        TableFault::OutOfMemory
    }
}

impl From<OutOfMemory> for TableFault {
    ghost from_gives = { λ _ e. e ≡ TableFault.OutOfMemory };

    fn from(_: OutOfMemory) -> Self {
        TableFault::OutOfMemory
    }
}
