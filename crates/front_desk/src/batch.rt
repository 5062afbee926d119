// The command that plans a table of jobs.
ghost use Rattle.std.specs.Prelude.{◌≡◌, ◌≤◌, None, All, IfOk, OnOk, IfErr};
ghost use Rattle.front_desk.specs.Words.{KeepsFiles, IfTold, network_held, StopsReading, StopsStating, Ends};
ghost use Rattle.front_desk.specs.Words.{batch_meaning, batch_fault, jobs_fault, jobs_held, IsBatchText};
ghost use Rattle.network_tables.specs.Jobs.{IsTimedJob, jobs_in};
ghost use Rattle.table_reader.specs.Records.{rows_of};

use crate::batch_trips::{Trips, planning_order};
use crate::outcome::{Halt, Report};
use ban_expansion::group_arcs;
use front_words::Batch;
use network_folder::{FileToRead, LoadFault, load_with};
use network_tables::{Jobs, Network, read_jobs};
use plan_report::batch_text;
use route_base::{BadInput, FileKind, Folder, Gate, OutOfMemory, TableFault};
use std::alloc::Global;
use std::thread::Threads;
use trip_batch::run_in_order;

// The jobs that a table states.
fn jobs_of(alloc: Global, bytes: &[u8]) -> Result<Jobs, LoadFault>
    ensures faultless { OnOk result (jobs_fault bytes.now ≡ None) }
    ensures stated { IfOk result (λ jobs. jobs ≡ jobs_in (rows_of bytes.now)) }
    ensures timed { IfOk result (λ jobs. All IsTimedJob jobs) }
    ensures refused { IfErr result (StopsStating (jobs_fault bytes.now)) }
{
    match read_jobs(alloc, bytes) {
        Ok(jobs) => Ok(jobs),
        Err(TableFault::BadRow { row, cause }) => Err(LoadFault::Bad(BadInput {
            file: FileKind::Jobs,
            row,
            cause,
        })),
        Err(TableFault::OutOfMemory) => Err(LoadFault::OutOfMemory),
    }
}

// The network of the batch's folder, and the jobs of its table.
fn load_batch<F: Folder>(
    alloc: Global,
    folder: &mut F,
    batch: &Batch,
) -> Result<(Network, Jobs), LoadFault>
    ensures faultless { OnOk result (IfTold (F.state folder.old)
        (λ held. batch_fault batch.now held ≡ None)) }
    ensures network { IfOk result (λ loaded. IfTold (F.state folder.old)
        (λ held. loaded.0 ≡ network_held held batch.now.dir)) }
    ensures jobs { IfOk result (λ loaded. IfTold (F.state folder.old)
        (λ held. loaded.1 ≡ jobs_held batch.now held)) }
    ensures timed { IfOk result (λ loaded. All IsTimedJob loaded.1) }
    ensures refused { IfErr result (StopsReading (batch_fault batch.now)
        (F.state folder.old) (F.state folder.new)) }
    ensures kept { KeepsFiles (F.state folder.old) (F.state folder.new) }
{
    let table = FileToRead::jobs(&batch.jobs);
    let (network, bytes) = load_with(alloc, folder, &batch.dir, table)?;
    let jobs = jobs_of(alloc, bytes.as_slice())?;
    Ok((network, jobs))
}

// The texts of all jobs, in their order, planned on several workers.
fn texts_of_jobs<R: Threads + Sync, G: Gate>(
    rt: &R,
    alloc: Global,
    network: &Network,
    jobs: &Jobs,
    batch: &Batch,
    gate: &G,
) -> Result<Vec<u8>, OutOfMemory>
    requires timed { All IsTimedJob jobs.now }
    requires workers { 1 ≤ batch.now.workers }
    ensures { IfOk result (λ text. IsBatchText network.now jobs.now text.items) }
{
    let groups = group_arcs(alloc, network)?;
    let numbers = planning_order(alloc, jobs.as_slice())?;
    let order = numbers.as_slice();
    let trips = Trips {
        alloc,
        network,
        groups: &groups,
        jobs,
        order,
    };
    let workers = batch.workers as usize;
    let texts = run_in_order(rt, alloc, &trips, order, workers, gate)?;
    let text = batch_text(alloc, texts.as_slice())?;
    Ok(text)
}

/// The texts of the jobs of a table over the files of the batch's folder, planned on several workers at once. Arcs are grouped once. A
/// worker goes through its jobs by vehicle and departure and keeps one net at a time, which serves all trips of a vehicle that follow one
/// another within eight times the minutes of the first; so there are at most as many nets as workers. Beside its net a job takes the time
/// and memory of a search.
pub fn report_batch<R: Threads + Sync, F: Folder, G: Gate>(
    rt: &R,
    alloc: Global,
    folder: &mut F,
    batch: &Batch,
    gate: &G,
) -> Result<Report, Halt>
    requires workers { 1 ≤ batch.now.workers }
    ensures { Ends (batch_meaning batch.now)
        (F.state folder.old) (F.state folder.new) result }
{
    let (network, jobs) = load_batch(alloc, folder, batch)?;
    Ok(Report {
        text: texts_of_jobs(rt, alloc, &network, &jobs, batch, gate)?,
        rejects: false,
    })
}
