// Answers words by the command that they are: one case a command.
ghost use Rattle.std.specs.Prelude.{◌≡◌, ◌⊎◌, Some, None, IfOk, IfErr};
ghost use Rattle.front_desk.specs.Words.{command_of, meaning_of, AsksSupported, Ends, EndsWords};

use crate::bans::report_bans;
use crate::batch::report_batch;
use crate::breaks::report_breaks;
use crate::explain::report_explain;
use crate::generation::report_gen;
use crate::judgement::report_check;
use crate::latest::report_latest;
use crate::outcome::{Halt, Report};
use crate::plan::report_plan;
use crate::rested_tour::report_rested_tour;
use crate::tour::report_tour;
use front_words::{Invocation, WordsFault, read_invocation};
use plan_report::Refusal;
use route_base::{Folder, Gate, Text};
use std::alloc::Global;
use std::thread::Threads;

// The command that the words are, or why there is none.
fn command_of_words(alloc: Global, words: &[Text]) -> Result<Invocation, Halt>
    ensures command { IfOk result (λ c. command_of words.now ≡ Some c) }
    ensures supported { IfOk result AsksSupported }
    ensures none { IfErr result (λ halt. (halt ≡ Halt.NoMemory)
        ⊎ ((halt ≡ Halt.Refused Refusal.Usage) × (command_of words.now ≡ None))) }
{
    match read_invocation(alloc, words) {
        Ok(command) => Ok(command),
        Err(WordsFault::NotACommand) => Err(Halt::Refused(Refusal::Usage)),
        Err(WordsFault::OutOfMemory) => Err(Halt::NoMemory),
    }
}

// The report that a command asks for, or why there is none.
fn report<R: Threads + Sync, F: Folder, G: Gate>(
    rt: &R,
    alloc: Global,
    command: &Invocation,
    folder: &mut F,
    gate: &G,
) -> Result<Report, Halt>
    requires { AsksSupported command.now }
    ensures { Ends (meaning_of command.now) (F.state folder.old) (F.state folder.new) result }
{
    match command {
        Invocation::Plan(plan) => report_plan(rt, alloc, folder, plan, gate),
        Invocation::Check(check) => report_check(rt, alloc, folder, check, gate),
        Invocation::Bans(bans) => report_bans(alloc, folder, bans),
        Invocation::Batch(batch) => report_batch(rt, alloc, folder, batch, gate),
        Invocation::Gen(grid) => report_gen(rt, alloc, folder, grid, gate),
        Invocation::Latest(late) => report_latest(rt, alloc, folder, late, gate),
        Invocation::Tour(tour) => report_tour(rt, alloc, folder, tour, gate),
        Invocation::RestedTour(rested) => report_rested_tour(rt, alloc, folder, rested, gate),
        Invocation::Breaks(breaks) => report_breaks(rt, alloc, folder, breaks, gate),
        Invocation::Explain(explain) => report_explain(rt, alloc, folder, explain, gate),
    }
}

/// The report that the words ask for, or why there is none.
pub fn answer<R: Threads + Sync, F: Folder, G: Gate>(
    rt: &R,
    alloc: Global,
    words: &[Text],
    folder: &mut F,
    gate: &G,
) -> Result<Report, Halt>
    ensures { EndsWords words.now (F.state folder.old) (F.state folder.new) result }
{
    let command = command_of_words(alloc, words)?;
    report(rt, alloc, &command, folder, gate)
}
