// The table of jobs: the trips of a batch.
ghost use Rattle.std.specs.Prelude.{◌≡◌, ◌∷◌, ◌++◌, [], length, All, IfOk, IfSome};
ghost use Rattle.table_reader.specs.Words.{fields_of, records_of, rows_of, ReadsRows, first_table_fault};
ghost use Rattle.network_tables.specs.Jobs.{job_of, jobs_schema, jobs_in, IsTimedJob};

use crate::limits::MOST_JOBS;
use calendar_days::read_instant;
use csv::ByteRecord;
use route_base::{
    Cause, Listing, Minute, OutOfMemory, TableFault, is_name_field, read_table_number,
};
use std::alloc::Global;
use std::marker::Model;
use table_reader::{RowFault, Table, field, read_table};

/// The name of a vehicle, which contracts see as its bytes.
pub type Name = Listing<u8>;

/// One job: a trip of the vehicle of this name from the node `origin` at minute `depart` to the node `goal`, with an arrival at
/// `until` at the latest.
#[derive(Drop)]
pub struct Job {
    pub vehicle: Name,
    pub origin: u32,
    pub goal: u32,
    pub depart: Minute,
    pub until: Minute,
}

/// Jobs in the order of their rows.
pub type Jobs = Listing<Job>;

/// Jobs while the table is being read, whose minutes are instants. Contracts see their list.
#[derive(Drop)]
struct JobTable {
    jobs: Jobs,
}

impl Model for JobTable {
    ghost use Rattle.std.specs.Prelude.{List, All};
    ghost use Rattle.network_tables.specs.declared.jobs.Job.{Job};
    ghost use Rattle.network_tables.specs.Jobs.{IsTimedJob};

    ghost Value = { List Job };

    ghost view = { λ t. t.jobs };

    ghost invariant = { λ t. All IsTimedJob t.jobs };
}

impl JobTable {
    // No jobs yet.
    fn new(alloc: Global) -> Self
        ensures { result ≡ [] }
    {
        JobTable {
            jobs: Jobs::new(alloc),
        }
    }

    // Appends a job, in constant time on average.
    fn push(&mut self, job: Job) -> Result<(), OutOfMemory>
        requires { IsTimedJob job }
        ensures { IfOk result (λ _. self.new ≡ self.old ++ job ∷ []) }
    {
        self.jobs.push(job)
    }

    // All jobs, at no cost.
    fn into_jobs(self) -> Jobs
        ensures same { result ≡ self }
        ensures timed { All IsTimedJob result }
    {
        self.jobs
    }
}

// The fields of a row.
#[derive(Clone, Copy)]
struct JobFields<'a> {
    vehicle: &'a [u8],
    from: &'a [u8],
    to: &'a [u8],
    depart: &'a [u8],
    until: &'a [u8],
}

// The five fields of a row.
fn five_fields(row: &ByteRecord) -> JobFields<'_>
    requires { length (fields_of row.now) ≡ 5 }
    ensures { fields_of row.now ≡ result.vehicle.now ∷ result.from.now ∷ result.to.now
        ∷ result.depart.now ∷ result.until.now ∷ [] }
{
    JobFields {
        vehicle: field(row, 0),
        from: field(row, 1),
        to: field(row, 2),
        depart: field(row, 3),
        until: field(row, 4),
    }
}

// Parses a data row; the name of its vehicle is copied.
fn read_job(alloc: Global, row: &ByteRecord) -> Result<Option<Job>, OutOfMemory>
    requires { length (fields_of row.now) ≡ 5 }
    ensures value { IfOk result (λ job. job ≡ job_of (fields_of row.now)) }
    ensures timed { IfOk result (λ job. IfSome job IsTimedJob) }
{
    let row = five_fields(row);
    if !is_name_field(row.vehicle) {
        return Ok(None);
    }
    let Some(origin) = read_table_number(row.from) else {
        return Ok(None);
    };
    let Some(goal) = read_table_number(row.to) else {
        return Ok(None);
    };
    let Ok(depart) = read_instant(row.depart) else {
        return Ok(None);
    };
    let Ok(until) = read_instant(row.until) else {
        return Ok(None);
    };
    Ok(Some(Job {
        vehicle: Name::from_vec(Vec::from_slice(alloc, row.vehicle)?),
        origin,
        goal,
        depart,
        until,
    }))
}

impl Table for JobTable {
    ghost schema = { λ t. jobs_schema };

    ghost becomes = { λ _ t header rows. t ≡ jobs_in rows };

    fn headers(&self) -> &'static [&'static [&'static str]] {
        &[&["vehicle", "from", "to", "depart", "until"]]
    }

    fn limit(&self) -> u32 {
        MOST_JOBS
    }

    fn add(&mut self, alloc: Global, _header: &[&str], row: &ByteRecord) -> Result<(), RowFault> {
        let Some(job) = read_job(alloc, row)? else {
            return Err(RowFault::Bad(Cause::BadField));
        };
        Ok(self.push(job)?)
    }
}

/// The jobs of a table, whose minutes are instants. Linear in the bytes, in time and memory. No vehicle and no node is looked up, and
/// `until` may be before `depart`.
///
/// `BadRow` names the first record that has a fault, from 1, and its cause: `BadHeader`, `FieldCount`, `SizeLimit` beyond 10,000
/// data rows, or `BadField` for a field that isn't of its form.
pub fn read_jobs(alloc: Global, bytes: &[u8]) -> Result<Jobs, TableFault>
    ensures read { ReadsRows result (first_table_fault jobs_schema (records_of bytes.now))
        (λ jobs. jobs ≡ jobs_in (rows_of bytes.now)) }
    ensures timed { IfOk result (λ jobs. All IsTimedJob jobs) }
{
    Ok(read_table(alloc, bytes, JobTable::new(alloc))?.into_jobs())
}
