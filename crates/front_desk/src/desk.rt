// The top call.
ghost use Rattle.std.specs.Prelude.{◌≡◌, ◌≢◌, ◌⊎◌};
ghost use Rattle.front_desk.specs.Words.{CountsRise, FailedToRead, FaultsRise, StaysSilent};
ghost use Rattle.front_desk.specs.Words.{command_of, ReadsNothing, LeavesFiles, IsAnswer, IsDue, IsRefused, Prints, FailsToWrite};
ghost use Rattle.front_desk.specs.Words.{RefusesUsage, RefusesBadInput, RefusesBadRequest, Completes, AcceptsGood, Runs};
ghost use Rattle.front_desk.specs.Words.{refusal_text_of, status_of, Writes};

use crate::commands::answer;
use crate::outcome::{Halt, status_of_refusal};
use plan_report::{Refusal, refusal_text};
use route_base::{Folder, Gate, NoGate, OutOfMemory, Sink, Status, Text, WriteError};
use std::alloc::Global;
use std::thread::Threads;

// Writes a text and returns the status to exit with: `due`, or why writing failed.
fn put<S: Sink>(out: &mut S, text: &[u8], due: Status) -> Status
    ensures { Writes due (S.state out.old) (S.state out.new) text.now result }
{
    match out.write(text) {
        Ok(()) => due,
        Err(WriteError::Failed) => Status::WriteFault,
        Err(WriteError::OutOfMemory) => Status::NoMemory,
    }
}

// Writes the line of a refusal.
fn refuse<S: Sink>(alloc: Global, out: &mut S, refusal: Refusal) -> Status
    ensures { Writes (status_of refusal) (S.state out.old) (S.state out.new)
        (refusal_text_of refusal) result }
{
    match refusal_text(alloc, refusal) {
        Ok(text) => put(out, text.as_slice(), status_of_refusal(refusal)),
        Err(OutOfMemory) => Status::NoMemory,
    }
}

/// Runs the program on its words, without the program's name, over a folder and a sink.
///
/// `read_invocation` of `front_words` says which words are a command, and `docs/COMMANDS.md` what each command prints and writes. Any other
/// words are `Usage`. The text goes to the sink in one call.
///
/// Reading takes the time and the memory of `load_network`, and the net of a trip those of `expand`. Then a plan takes those of
/// `propagation::search`, which are those of the cost functions' pieces and not of minutes, and for each pair what its legs take;
/// `latest`, `tour` and `breaks` take those of `latest`, `plan_tour` and `plan_rested`, and `explain` those of a plan and of
/// `trip_explain::explain`. `bans` takes those of `closed_set`, `batch` those of `expand_groups` for each net that trips share and of a
/// search for each trip, and `gen` those of `generate` and of a plan. A judgement takes a few binary searches for
/// each piece of a node's function and each arc that leaves the node, and for each closed run and each piece that such a step meets; beside
/// the certificate's memory it takes that of the list of its pairs.
pub fn run<R: Threads + Sync, F: Folder, S: Sink>(
    rt: &R,
    alloc: Global,
    words: &[Text],
    folder: &mut F,
    out: &mut S,
) -> Status
    // The headline: the text that is printed if the command is done.
    ensures done { result ≡ Status.Done
        → Prints (IsAnswer words.now (F.state folder.old) (F.state folder.new))
        (S.state out.old) (S.state out.new) }

    // The text that is printed with each other status.
    ensures refused { IsRefused result
        → Prints (IsDue words.now (F.state folder.old) (F.state folder.new) result)
        (S.state out.old) (S.state out.new) }
    ensures write_fault { result ≡ Status.WriteFault
        → FailsToWrite words.now (F.state folder.old) (F.state folder.new)
        (S.state out.old) (S.state out.new) }
    ensures silent { (result ≡ Status.ReadFault) ⊎ (result ≡ Status.NoMemory)
        → StaysSilent (S.state out.old) (S.state out.new) }

    // A read fault comes only if it was counted, and only if a file is read.
    ensures read_fault { result ≡ Status.ReadFault
        → FailedToRead (F.state folder.old) (F.state folder.new) }
    ensures nothing_read { ReadsNothing (command_of words.now) → result ≢ Status.ReadFault }

    // Each refusal comes where it has to, unless reading, writing or memory fails; and without a cause none comes.
    ensures usage_due { RefusesUsage words.now result }
    ensures bad_input_due { RefusesBadInput words.now (F.state folder.old) result }
    ensures bad_request_due { RefusesBadRequest words.now (F.state folder.old) result }
    ensures complete { Completes words.now (F.state folder.old) (F.state folder.new)
        (S.state out.old) (S.state out.new) result }

    // A good certificate is accepted.
    ensures accepted { AcceptsGood words.now (F.state folder.old) result }

    // The folder's files afterwards; no count of faults falls.
    ensures left { LeavesFiles (command_of words.now)
        (F.state folder.old) (F.state folder.new) result }
    ensures folder_counts { CountsRise (F.state folder.old) (F.state folder.new) }
    ensures sink_count { FaultsRise (S.state out.old) (S.state out.new) }
{
    run_gated(rt, alloc, words, folder, out, &NoGate)
}

/// Runs the program as `run` does, with the same contract, whose clauses are the fields of `Runs`; each worker goes through the gate before it
/// begins a job of a batch, or its part of the closed minutes of another command. So a test can see that workers work at once.
pub fn run_gated<R: Threads + Sync, F: Folder, S: Sink, G: Gate>(
    rt: &R,
    alloc: Global,
    words: &[Text],
    folder: &mut F,
    out: &mut S,
    gate: &G,
) -> Status
    ensures { Runs words.now (F.state folder.old) (F.state folder.new)
        (S.state out.old) (S.state out.new) result }
{
    match answer(rt, alloc, words, folder, gate) {
        Ok(report) => put(out, report.text.as_slice(), report.status()),
        Err(Halt::Refused(refusal)) => refuse(alloc, out, refusal),
        Err(Halt::ReadFault) => Status::ReadFault,
        Err(Halt::WriteFault) => Status::WriteFault,
        Err(Halt::NoMemory) => Status::NoMemory,
    }
}
