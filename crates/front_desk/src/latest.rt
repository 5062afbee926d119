// The command that answers how late one may leave.
ghost use Rattle.std.specs.Prelude.{IfOk};
ghost use Rattle.front_desk.specs.Words.{latest_meaning, IsTimed};
ghost use Rattle.front_desk.specs.Words.{request_of, Ends, IsLateText, IsLateRequest};
ghost use Rattle.route_base.specs.Net.{setting_of};

use crate::laws;
use crate::networks::net_within;
use crate::outcome::{Halt, Report};
use crate::requests::{request_of, trip_of};
use front_words::Latest;
use itinerary_unpack::FunctionEngine;
use latest_departure::{late_text, latest};
use network_folder::load_network;
use route_base::{Folder, Gate, Minute, OutOfMemory, Request, TimedNet};
use std::alloc::Global;
use std::thread::Threads;

/// The most minutes from the earliest departure to the deadline: one less than those of a trip, since the search adds a minute.
pub const LONGEST_LATE_HORIZON: Minute = 86_399;

// The text of the latest departures over the net of a trip.
fn late_text_over(alloc: Global, net: &TimedNet, request: Request) -> Result<Vec<u8>, OutOfMemory>
    requires { IsLateRequest net.now request }
    ensures { IfOk result (λ text. IsLateText (setting_of net.now) request text.items) }
{
    let routes = latest(alloc, &FunctionEngine, net, request)?;
    let text = late_text(alloc, &routes)?;
    Ok(text)
}

/// The latest departures of the command's trip over the files of its folder, as a text. Several workers make the net at once; the
/// network is given back before the search, which needs the net alone and takes the time and memory of `latest`.
pub fn report_latest<R: Threads + Sync, F: Folder, G: Gate>(
    rt: &R,
    alloc: Global,
    folder: &mut F,
    late: &Latest,
    gate: &G,
) -> Result<Report, Halt>
    requires timed { IsTimed late.now.trip }
    ensures { Ends (latest_meaning late.now)
        (F.state folder.old) (F.state folder.new) result }
{
    let network = load_network(alloc, folder, &late.dir)?;
    let trip = trip_of(&late.trip);
    let net = net_within(rt, alloc, network, trip, LONGEST_LATE_HORIZON, gate)?;
    laws::late_texts_agree();
    let text = late_text_over(alloc, &net, request_of(trip))?;
    Ok(Report {
        text,
        rejects: false,
    })
}
