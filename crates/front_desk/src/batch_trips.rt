// The trips of a batch, planned by vehicle and departure.
ghost use Rattle.std.specs.Prelude.{◌≡◌, ◌<◌, ◌≤◌, Some, All, length};
ghost use Rattle.std.specs.Prelude.{IfOk, OnOk, IfSome, slice_get, slice_index};
ghost use Rattle.ban_expansion.specs.Words.{IsWindow};
ghost use Rattle.network_tables.specs.Jobs.{IsTimedJob};
ghost use Rattle.front_desk.specs.Batch.{IsJobText, IsTripReport, trip_of_job};
ghost use Rattle.front_desk.specs.Inside.Grouping.{KeepsGroups};
ghost use Rattle.front_desk.specs.Inside.Sharing.{HasEachJob, IsSharedNet, IsSharedBy, IsTextAtPlace};
ghost use Rattle.front_desk.specs.Words.{IsChecked, IsTimed, trip_in, trip_setting};

use crate::requests::{Trip, vehicle_of_trip};
use crate::shared_nets::{SharedNet, is_shared_by, shared_net, text_over};
use ban_expansion::ArcGroups;
use network_tables::{Job, Jobs, Network};
use plan_report::{Refusal, refusal_text};
use route_base::{Gate, JobText, OutOfMemory, Run};
use std::alloc::Global;
use trip_batch::PartPlanner;
use vehicle_classes::Vehicle;

// How often the minutes of the first trip may fit into the window of a net that trips share.
const MOST_TIMES_FIRST: u64 = 8;

/// The trips of jobs over one network, whose arcs are grouped once. `order` has the number of the job at each place. Workers share it.
#[derive(Drop)]
pub struct Trips<'a> {
    pub alloc: Global,
    pub network: &'a Network,
    pub groups: &'a ArcGroups,
    pub jobs: &'a Jobs,
    pub order: &'a [usize],
    ghost grouped: { KeepsGroups network.now groups.now },
    ghost timed: { All IsTimedJob jobs.now },
    ghost ordered: { All (λ job. job < length jobs.now) order.now },
}

// The trip of a job.
fn trip_of_job(job: &Job) -> Trip<'_>
    ensures { trip_in result ≡ trip_of_job job.now }
{
    Trip {
        vehicle: job.vehicle.as_slice(),
        origin: job.origin,
        goal: job.goal,
        depart: job.depart,
        until: job.until,
    }
}

/// The numbers of jobs, by the name of the vehicle and the departure. In n log n steps.
pub fn planning_order(alloc: Global, jobs: &[Job]) -> Result<Vec<usize>, OutOfMemory>
    ensures { IfOk result (λ order. HasEachJob (length jobs.now) order.items) }
{
    let mut keys = Vec::with_capacity(alloc, jobs.len())?;
    for (number, job) in jobs.iter().enumerate() {
        keys.push((job.vehicle.as_slice(), job.depart, number))?;
    }
    keys.sort_unstable();
    let mut order = Vec::with_capacity(alloc, jobs.len())?;
    for key in keys.iter() {
        order.push(key.2)?;
    }
    Ok(order)
}

impl Trips<'_> {
    // The job at a place.
    fn job_at(&self, place: usize) -> &Job
        requires { place < length self.now.order.now }
        ensures is { slice_get self.now.jobs.now (slice_index self.now.order.now place)
            ≡ Some result.now }
        ensures timed { IsTimedJob result.now }
    {
        &self.jobs.as_slice()[self.order[place]]
    }

    // The window of a net for the trip at a place and those of its vehicle that follow it within a few times its minutes.
    fn window_from(&self, trip: Trip<'_>, place: usize, to: usize) -> Run
        requires timed { IsTimed (trip_in trip) }
        requires in_time { trip.depart ≤ trip.until }
        requires order { place < to }
        requires within { to ≤ length self.now.order.now }
        ensures window { IsWindow result }
        ensures from { result.lo ≤ trip.entry.depart }
        ensures to { trip.entry.until ≤ result.hi }
    {
        let latest = trip.depart + MOST_TIMES_FIRST * (trip.until - trip.depart);
        let mut hi = trip.until;
        for next in place + 1..to {
            let job = self.job_at(next);
            if job.vehicle.as_slice() != trip.vehicle
                || job.depart < trip.depart
                || job.until > latest
            {
                break;
            }
            hi = hi.max(job.until);
        }
        Run {
            lo: trip.depart,
            hi,
        }
    }

    // A net for the trip at a place: the one that is kept, if the trip shares it, or a new one.
    fn shared_net_for(
        &self,
        kept: Option<SharedNet>,
        vehicle: &Vehicle,
        trip: Trip<'_>,
        place: usize,
        to: usize,
    ) -> Result<SharedNet, OutOfMemory>
        requires kept { IfSome kept (IsSharedNet self.now.network.now) }
        requires checked { IsChecked self.now.network.now (trip_in trip) vehicle.now }
        requires timed { IsTimed (trip_in trip) }
        requires order { place < to }
        requires within { to ≤ length self.now.order.now }
        ensures right { IfOk result (IsSharedNet self.now.network.now) }
        ensures shared { IfOk result (λ shared. IsSharedBy shared (trip_in trip.entry)) }
    {
        if let Some(net) = kept {
            if is_shared_by(&net, trip) {
                return Ok(net);
            }
        }
        let window = self.window_from(trip, place, to);
        shared_net(self.alloc, self.network, self.groups, vehicle, trip, window)
    }

    // The text of the plan of the trip at a place, which passes the checks, for its vehicle.
    fn text_of_trip(
        &self,
        shared: &mut Option<SharedNet>,
        vehicle: &Vehicle,
        trip: Trip<'_>,
        place: usize,
        to: usize,
    ) -> Result<Vec<u8>, OutOfMemory>
        requires shared { IfSome shared.old (IsSharedNet self.now.network.now) }
        requires checked { IsChecked self.now.network.now (trip_in trip) vehicle.now }
        requires timed { IsTimed (trip_in trip) }
        requires order { place < to }
        requires within { to ≤ length self.now.order.now }
        ensures text { IfOk result (λ text. IsTripReport
            (trip_setting self.now.network.now (trip_in trip.entry)) (trip_in trip.entry)
            text.items) }
        ensures shared { OnOk result (IfSome shared.new (IsSharedNet self.now.network.now)) }
    {
        let net = self.shared_net_for(shared.take(), vehicle, trip, place, to)?;
        let text = text_over(self.alloc, self.network, &net, trip)?;
        *shared = Some(net);
        Ok(text)
    }

    // A right text of the job at a place: the plan of its trip, or the first check that it fails.
    fn text_of_job(
        &self,
        shared: &mut Option<SharedNet>,
        job: &Job,
        place: usize,
        to: usize,
    ) -> Result<Vec<u8>, OutOfMemory>
        requires shared { IfSome shared.old (IsSharedNet self.now.network.now) }
        requires timed { IsTimedJob job.now }
        requires order { place < to }
        requires within { to ≤ length self.now.order.now }
        ensures text { IfOk result (λ text. IsJobText self.now.network.now job.now text.items) }
        ensures shared { OnOk result (IfSome shared.new (IsSharedNet self.now.network.now)) }
    {
        let trip = trip_of_job(job);
        match vehicle_of_trip(self.network, trip) {
            Ok(vehicle) => self.text_of_trip(shared, vehicle, trip, place, to),
            Err(fault) => refusal_text(self.alloc, Refusal::Request(fault)),
        }
    }

    // A right text of the job at a place.
    fn text_at(
        &self,
        shared: &mut Option<SharedNet>,
        place: usize,
        to: usize,
    ) -> Result<JobText, OutOfMemory>
        requires shared { IfSome shared.old (IsSharedNet self.now.network.now) }
        requires order { place < to }
        requires within { to ≤ length self.now.order.now }
        ensures text { IfOk result
            (IsTextAtPlace self.now.network.now self.now.jobs.now self.now.order.now place) }
        ensures shared { OnOk result (IfSome shared.new (IsSharedNet self.now.network.now)) }
    {
        let job = self.job_at(place);
        let text = self.text_of_job(shared, job, place, to)?;
        Ok(JobText::from_vec(text))
    }
}

impl PartPlanner for Trips<'_> {
    ghost use Rattle.std.specs.Prelude.{length};
    ghost use Rattle.front_desk.specs.Inside.Sharing.{IsTextAtPlace};

    ghost jobs = { λ trips. length trips.order.now };

    ghost is_right = { λ trips place text.
        IsTextAtPlace trips.network.now trips.jobs.now trips.order.now place text };

    fn plan_part<G: Gate>(
        &self,
        from: usize,
        to: usize,
        gate: &G,
    ) -> Result<Vec<JobText>, OutOfMemory> {
        let mut texts = Vec::new(self.alloc);
        let mut shared = None;
        for place in from..to {
            gate.enter(self.order[place]);
            texts.push(self.text_at(&mut shared, place, to)?)?;
        }
        Ok(texts)
    }
}
