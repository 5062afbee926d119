// A file to read: its limit, and whether it may be missing.
ghost use Rattle.std.specs.Prelude.{◌≢◌};
ghost use Rattle.route_base.specs.declared.faults.Cause.TheVariants.{Missing};

use route_base::limits::{LONGEST_CERTIFICATE, LONGEST_FILE};
use route_base::{Cause, FileKind, Text};

/// The most bytes of an itinerary's file.
pub const LONGEST_ITINERARY: u64 = 16_777_216;

/// A file to read: its kind, its name below the folder, whether it has to be there, the most bytes that it may have, and the
/// cause of its refusal if it has more.
#[derive(Clone, Copy)]
pub struct FileToRead<'a> {
    pub kind: FileKind,
    pub name: &'a str,
    pub required: bool,
    pub limit: u64,
    pub beyond: Cause,
    ghost not_missing: { beyond ≢ Missing },
}

impl FileToRead<'static> {
    ghost use Rattle.std.specs.Prelude.{◌≡◌};
    ghost use Rattle.network_folder.specs.Files.{file_in};
    ghost use Rattle.network_folder.specs.ReadingOrder.{required_file, table_file, network_file};

    /// A file that has to be there.
    pub fn required(kind: FileKind) -> FileToRead<'static>
        ensures { file_in result ≡ required_file kind }
    {
        FileToRead::named(kind, kind.label(), true, LONGEST_FILE)
    }

    /// A table, which may be missing.
    pub fn table(kind: FileKind) -> FileToRead<'static>
        ensures { file_in result ≡ table_file kind }
    {
        FileToRead::named(kind, kind.label(), false, LONGEST_FILE)
    }

    // A file of a network: the graph has to be there, and a table may be missing.
    pub(crate) fn of_network(kind: FileKind) -> FileToRead<'static>
        ensures { file_in result ≡ network_file kind }
    {
        match kind {
            FileKind::Graph => FileToRead::required(kind),
            _ => FileToRead::table(kind),
        }
    }
}

impl<'a> FileToRead<'a> {
    ghost use Rattle.std.specs.Prelude.{◌≡◌};
    ghost use Rattle.network_folder.specs.Files.{file_in};
    ghost use Rattle.network_folder.specs.ReadingOrder.{named_file, certificate_file, itinerary_file, jobs_file, stops_file};

    // A file of this name, which is TooLong beyond the limit.
    fn named(kind: FileKind, name: &'a str, required: bool, limit: u64) -> FileToRead<'a>
        ensures { file_in result ≡ named_file kind name.now required limit }
    {
        FileToRead {
            kind,
            name,
            required,
            limit,
            beyond: Cause::TooLong,
        }
    }

    /// The certificate of this name, which has to be there.
    pub fn certificate(name: &'a Text) -> FileToRead<'a>
        ensures { file_in result ≡ certificate_file name.now }
    {
        FileToRead::named(
            FileKind::Certificate,
            name.as_str(),
            true,
            LONGEST_CERTIFICATE,
        )
    }

    /// The table of jobs of this name, which has to be there.
    pub fn jobs(name: &'a Text) -> FileToRead<'a>
        ensures { file_in result ≡ jobs_file name.now }
    {
        FileToRead::named(FileKind::Jobs, name.as_str(), true, LONGEST_FILE)
    }

    /// The table of stops of this name, which has to be there.
    pub fn stops(name: &'a Text) -> FileToRead<'a>
        ensures { file_in result ≡ stops_file name.now }
    {
        FileToRead::named(FileKind::Stops, name.as_str(), true, LONGEST_FILE)
    }

    /// The itinerary of this name, which has to be there.
    pub fn itinerary(name: &'a Text) -> FileToRead<'a>
        ensures { file_in result ≡ itinerary_file name.now }
    {
        FileToRead::named(FileKind::Itinerary, name.as_str(), true, LONGEST_ITINERARY)
    }
}
