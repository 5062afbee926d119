// The command that explains an itinerary.
ghost use Rattle.std.specs.Prelude.{◌≡◌, None, Some, IfOk, OnOk, IfErr};
ghost use Rattle.front_desk.specs.Words.{KeepsFiles, IfTold, network_held, StopsReading, StopsStating, Ends};
ghost use Rattle.front_desk.specs.Words.{legs_held, itinerary_fault, explain_fault, explain_meaning};
ghost use Rattle.front_desk.specs.Words.{IsFirstBetter, IsBetterFor, IsExplainText};
ghost use Rattle.front_desk.specs.Words.{trip_setting, request_of, trip_in, vehicle_named, failed_check};
ghost use Rattle.front_desk.specs.Words.{IsTimed, IsPlannable, StopsTrip};
ghost use Rattle.route_base.specs.Legs.{HasNoEmptyWait};
ghost use Rattle.route_base.specs.Net.{setting_of};
ghost use Rattle.trip_explain.specs.Explanations.{IsExplained};
ghost use Rattle.trip_explain.specs.ItineraryFile.{legs_of};

use crate::laws;
use crate::networks::net_for;
use crate::outcome::{Halt, Report};
use crate::requests::{Trip, request_of, trip_of, vehicle_of_trip};
use front_words::Explain;
use itinerary_unpack::FunctionEngine;
use network_folder::{FileToRead, LoadFault, load_with};
use network_tables::Network;
use plan_report::Refusal;
use route_base::{
    BadInput, Cause, FileKind, Folder, FrontSearch, Gate, Leg, Legs, OutOfMemory, Pair, Request,
    TimedNet,
};
use std::alloc::Global;
use std::thread::Threads;
use trip_explain::{Explanation, ItineraryFault, dominator, explain, explain_text, read_itinerary};

// The first pair of the Pareto front over the net of a trip that dominates a pair.
fn better_over(
    alloc: Global,
    net: &TimedNet,
    request: Request,
    pair: Pair,
) -> Result<Option<Pair>, OutOfMemory>
    requires { IsPlannable net.now request }
    ensures { IfOk result (IsFirstBetter (setting_of net.now) request pair) }
{
    let routes = FunctionEngine.front(alloc, net, request)?;
    Ok(dominator(&routes, pair))
}

// The pair that is better than explained legs. For unlawful ones nothing is searched; else several workers make the net at once, and the
// network is given back before the search.
fn better_for<R: Threads + Sync, G: Gate>(
    rt: &R,
    alloc: Global,
    network: Network,
    trip: Trip<'_>,
    explanation: Explanation,
    gate: &G,
) -> Result<Option<Pair>, Halt>
    requires timed { IsTimed (trip_in trip) }
    ensures right { IfOk result (IsBetterFor (trip_setting network (trip_in trip.entry))
        (request_of (trip_in trip.entry)) explanation) }
    ensures refused { IfErr result (StopsTrip network (trip_in trip.entry)) }
{
    let Explanation::Lawful(pair) = explanation else {
        return Ok(None);
    };
    let net = net_for(rt, alloc, network, trip, gate)?;
    laws::better_pairs_agree();
    let better = better_over(alloc, &net, request_of(trip), pair)?;
    Ok(better)
}

// The explanation of the legs for a trip, or the first check that the trip fails.
fn explanation_of(network: &Network, trip: Trip<'_>, legs: &[Leg]) -> Result<Explanation, Halt>
    requires timed { IsTimed (trip_in trip) }
    requires waits { HasNoEmptyWait legs.now }
    ensures passed { OnOk result (failed_check network.now (trip_in trip.entry) ≡ None) }
    ensures right { IfOk result (IsExplained network.now
        (vehicle_named network.now (trip_in trip.entry).vehicle)
        (request_of (trip_in trip.entry)) legs.now) }
    ensures refused { IfErr result (StopsTrip network.now (trip_in trip.entry)) }
{
    match vehicle_of_trip(network, trip) {
        Ok(vehicle) => Ok(explain(network, vehicle, request_of(trip), legs)),
        Err(fault) => Err(Halt::Refused(Refusal::Request(fault))),
    }
}

// The text that explains the legs of a trip over a network, or why there is none: a check that the trip fails, or no memory.
fn text_of_legs<R: Threads + Sync, G: Gate>(
    rt: &R,
    alloc: Global,
    network: Network,
    trip: Trip<'_>,
    legs: Legs,
    gate: &G,
) -> Result<Vec<u8>, Halt>
    requires timed { IsTimed (trip_in trip) }
    requires waits { HasNoEmptyWait legs }
    ensures passed { OnOk result (failed_check network (trip_in trip.entry) ≡ None) }
    ensures right { IfOk result (λ text. IsExplainText network
        (vehicle_named network (trip_in trip.entry).vehicle)
        (request_of (trip_in trip.entry)) legs text.items) }
    ensures refused { IfErr result (StopsTrip network (trip_in trip.entry)) }
{
    let explanation = explanation_of(&network, trip, legs.as_slice())?;
    drop(legs);
    let better = better_for(rt, alloc, network, trip, explanation, gate)?;
    let text = explain_text(alloc, explanation, better)?;
    Ok(text)
}

// The legs that the lines of an itinerary's file state.
fn stated_legs(alloc: Global, bytes: &[u8]) -> Result<Legs, LoadFault>
    ensures faultless { OnOk result (itinerary_fault bytes.now ≡ None) }
    ensures stated { IfOk result (λ legs. legs ≡ legs_of bytes.now) }
    ensures waits { IfOk result HasNoEmptyWait }
    ensures refused { IfErr result (StopsStating (itinerary_fault bytes.now)) }
{
    match read_itinerary(alloc, bytes) {
        Ok(legs) => Ok(legs),
        Err(ItineraryFault::BadLine { line }) => Err(LoadFault::Bad(BadInput {
            file: FileKind::Itinerary,
            row: line,
            cause: Cause::BadForm,
        })),
        Err(ItineraryFault::OutOfMemory) => Err(LoadFault::OutOfMemory),
    }
}

// The network of the command's folder, and the legs of its itinerary.
fn load_itinerary<F: Folder>(
    alloc: Global,
    folder: &mut F,
    explain: &Explain,
) -> Result<(Network, Legs), LoadFault>
    ensures faultless { OnOk result (IfTold (F.state folder.old)
        (λ held. explain_fault explain.now held ≡ None)) }
    ensures network { IfOk result (λ loaded. IfTold (F.state folder.old)
        (λ held. loaded.0 ≡ network_held held explain.now.dir)) }
    ensures legs { IfOk result (λ loaded. IfTold (F.state folder.old)
        (λ held. loaded.1 ≡ legs_held explain.now held)) }
    ensures waits { IfOk result (λ loaded. HasNoEmptyWait loaded.1) }
    ensures refused { IfErr result (StopsReading (explain_fault explain.now)
        (F.state folder.old) (F.state folder.new)) }
    ensures kept { KeepsFiles (F.state folder.old) (F.state folder.new) }
{
    let file = FileToRead::itinerary(&explain.itinerary);
    let (network, bytes) = load_with(alloc, folder, &explain.dir, file)?;
    let legs = stated_legs(alloc, bytes.as_slice())?;
    Ok((network, legs))
}

/// The explanation of the itinerary in the command's file over the files of its folder, as a text. Lawful legs take the time and memory of
/// a plan of their trip, whose Pareto front is searched for a better pair; unlawful ones only those of reading and of
/// `trip_explain::explain`.
pub fn report_explain<R: Threads + Sync, F: Folder, G: Gate>(
    rt: &R,
    alloc: Global,
    folder: &mut F,
    explain: &Explain,
    gate: &G,
) -> Result<Report, Halt>
    requires timed { IsTimed explain.now.trip }
    ensures { Ends (explain_meaning explain.now)
        (F.state folder.old) (F.state folder.new) result }
{
    let (network, legs) = load_itinerary(alloc, folder, explain)?;
    let text = text_of_legs(rt, alloc, network, trip_of(&explain.trip), legs, gate)?;
    Ok(Report {
        text,
        rejects: false,
    })
}
