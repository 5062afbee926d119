// The commands, with the values of all their words side by side.
ghost use Rattle.std.specs.Prelude.{◌≡◌};
ghost use Rattle.front_words.specs.Commands.{command_in, to_bans, to_batch, to_breaks, to_check, to_explain, to_gen, to_latest};
ghost use Rattle.front_words.specs.Commands.{to_plan, to_rested_tour, to_tour};

use crate::{Bans, Batch, Breaks, Check, Explain, Gen, Invocation, Latest, Plan, RestedTour, Tour};
use route_base::{Form, Minute, Text};

/// A command, with the values of its words. Nodes and arcs are numbered from 1; minutes are Unix minutes.
#[derive(Drop)]
pub enum Command {
    /// Plans a trip over the files of the folder `dir`, reports it in a form, and writes a certificate into the folder if a name is
    /// given for it.
    Plan {
        dir: Text,
        vehicle: Text,
        from: u32,
        to: u32,
        depart: Minute,
        until: Minute,
        form: Form,
        certificate: Option<Text>,
    },
    /// Judges the certificate `name` for a trip over the files of the folder `dir`.
    Check {
        dir: Text,
        vehicle: Text,
        from: u32,
        to: u32,
        depart: Minute,
        until: Minute,
        name: Text,
    },
    /// Prints the minutes from `depart` up to, but not including, `until` at which an arc is closed to a vehicle, over the files of the folder
    /// `dir`.
    Bans {
        dir: Text,
        vehicle: Text,
        arc: u32,
        depart: Minute,
        until: Minute,
    },
    /// Plans each job of the file `jobs` over the files of the folder `dir`, on this many workers.
    Batch {
        dir: Text,
        jobs: Text,
        workers: u32,
    },
    /// Draws a network of these rows and columns from a number, and writes its files into the folder `dir`.
    Gen {
        dir: Text,
        number: u64,
        rows: u32,
        columns: u32,
    },
    /// Finds the latest departures of a trip over the files of the folder `dir`: none before `depart`, each arriving by `until`.
    Latest {
        dir: Text,
        vehicle: Text,
        from: u32,
        to: u32,
        depart: Minute,
        until: Minute,
    },
    /// Plans a trip that serves each stop of the file `stops` over the files of the folder `dir`.
    Tour {
        dir: Text,
        vehicle: Text,
        from: u32,
        to: u32,
        depart: Minute,
        until: Minute,
        stops: Text,
    },
    /// Plans a trip that serves each stop of the file `stops`, under a break rule: at most `drive` minutes of driving since the last unbroken
    /// wait of `rest` minutes.
    RestedTour {
        dir: Text,
        vehicle: Text,
        from: u32,
        to: u32,
        depart: Minute,
        until: Minute,
        stops: Text,
        drive: u64,
        rest: u64,
    },
    /// Plans a trip over the files of the folder `dir` under a break rule: at most `drive` minutes of driving since the last unbroken wait
    /// of `rest` minutes.
    Breaks {
        dir: Text,
        vehicle: Text,
        from: u32,
        to: u32,
        depart: Minute,
        until: Minute,
        drive: u64,
        rest: u64,
    },
    /// Says what is wrong with the itinerary of the file `itinerary`, for a trip over the files of the folder `dir`, or which pair is
    /// better.
    Explain {
        dir: Text,
        vehicle: Text,
        from: u32,
        to: u32,
        depart: Minute,
        until: Minute,
        itinerary: Text,
    },
}

fn flat_plan(plan: Plan) -> Command
    ensures { command_in result ≡ to_plan plan }
{
    let Plan {
        dir,
        trip,
        form,
        certificate,
    } = plan;
    Command::Plan {
        dir,
        vehicle: trip.vehicle,
        from: trip.origin,
        to: trip.goal,
        depart: trip.depart,
        until: trip.until,
        form,
        certificate,
    }
}

fn flat_check(check: Check) -> Command
    ensures { command_in result ≡ to_check check }
{
    let Check { dir, trip, name } = check;
    Command::Check {
        dir,
        vehicle: trip.vehicle,
        from: trip.origin,
        to: trip.goal,
        depart: trip.depart,
        until: trip.until,
        name,
    }
}

fn flat_bans(bans: Bans) -> Command
    ensures { command_in result ≡ to_bans bans }
{
    Command::Bans {
        dir: bans.dir,
        vehicle: bans.vehicle,
        arc: bans.arc,
        depart: bans.depart,
        until: bans.until,
    }
}

fn flat_batch(batch: Batch) -> Command
    ensures { command_in result ≡ to_batch batch }
{
    Command::Batch {
        dir: batch.dir,
        jobs: batch.jobs,
        workers: batch.workers,
    }
}

fn flat_gen(network: Gen) -> Command
    ensures { command_in result ≡ to_gen network }
{
    Command::Gen {
        dir: network.dir,
        number: network.number,
        rows: network.rows,
        columns: network.columns,
    }
}

fn flat_latest(latest: Latest) -> Command
    ensures { command_in result ≡ to_latest latest }
{
    let Latest { dir, trip } = latest;
    Command::Latest {
        dir,
        vehicle: trip.vehicle,
        from: trip.origin,
        to: trip.goal,
        depart: trip.depart,
        until: trip.until,
    }
}

fn flat_tour(tour: Tour) -> Command
    ensures { command_in result ≡ to_tour tour }
{
    let Tour { dir, trip, stops } = tour;
    Command::Tour {
        dir,
        vehicle: trip.vehicle,
        from: trip.origin,
        to: trip.goal,
        depart: trip.depart,
        until: trip.until,
        stops,
    }
}

fn flat_rested_tour(rested: RestedTour) -> Command
    ensures { command_in result ≡ to_rested_tour rested }
{
    let RestedTour { tour, drive, rest } = rested;
    let Tour { dir, trip, stops } = tour;
    Command::RestedTour {
        dir,
        vehicle: trip.vehicle,
        from: trip.origin,
        to: trip.goal,
        depart: trip.depart,
        until: trip.until,
        stops,
        drive,
        rest,
    }
}

fn flat_breaks(breaks: Breaks) -> Command
    ensures { command_in result ≡ to_breaks breaks }
{
    let Breaks {
        dir,
        trip,
        drive,
        rest,
    } = breaks;
    Command::Breaks {
        dir,
        vehicle: trip.vehicle,
        from: trip.origin,
        to: trip.goal,
        depart: trip.depart,
        until: trip.until,
        drive,
        rest,
    }
}

fn flat_explain(explain: Explain) -> Command
    ensures { command_in result ≡ to_explain explain }
{
    let Explain {
        dir,
        trip,
        itinerary,
    } = explain;
    Command::Explain {
        dir,
        vehicle: trip.vehicle,
        from: trip.origin,
        to: trip.goal,
        depart: trip.depart,
        until: trip.until,
        itinerary,
    }
}

// The same command, its words side by side.
pub fn side_by_side(invocation: Invocation) -> Command
    ensures { command_in result ≡ invocation }
{
    match invocation {
        Invocation::Plan(plan) => flat_plan(plan),
        Invocation::Check(check) => flat_check(check),
        Invocation::Bans(bans) => flat_bans(bans),
        Invocation::Batch(batch) => flat_batch(batch),
        Invocation::Gen(network) => flat_gen(network),
        Invocation::Latest(latest) => flat_latest(latest),
        Invocation::Tour(tour) => flat_tour(tour),
        Invocation::RestedTour(tour) => flat_rested_tour(tour),
        Invocation::Breaks(breaks) => flat_breaks(breaks),
        Invocation::Explain(explain) => flat_explain(explain),
    }
}
