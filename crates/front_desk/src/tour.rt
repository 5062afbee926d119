// The command that plans a tour of stops.
ghost use Rattle.std.specs.Prelude.{◌≡◌, None, Some, All, IfOk, OnOk, IfErr};
ghost use Rattle.front_desk.specs.Words.{KeepsFiles, IfTold, network_held, StopsReading, StopsStating, Ends};
ghost use Rattle.front_desk.specs.Words.{stops_held, stops_fault, tour_fault, failed_size, IsTourText, tour_meaning};
ghost use Rattle.front_desk.specs.Words.{request_of, IsTimed, IsPlannable, StopsAtSize};
ghost use Rattle.front_transport.specs.CheapArcs.{HasCheapArcs};
ghost use Rattle.route_base.specs.Net.{setting_of};
ghost use Rattle.route_base.specs.declared.faults.RequestFault.TheVariants.{TooManyStates};
ghost use Rattle.stop_tour.specs.StopTable.{stops_in};
ghost use Rattle.stop_tour.specs.Tours.{IsGoodStop, IsStopAmong};
ghost use Rattle.table_reader.specs.Records.{rows_of};

use crate::laws;
use crate::networks::net_for;
use crate::outcome::{Halt, Report, too_many_states};
use crate::requests::{request_of, trip_of};
use front_words::Tour;
use network_folder::{FileToRead, LoadFault, load_with};
use network_tables::Network;
use rested_tours::plan_tour;
use route_base::{BadInput, FileKind, Folder, Gate, Request, TableFault, TimedNet};
use std::alloc::Global;
use std::thread::Threads;
use stop_tour::{Stops, read_stops, tour_fits, tour_text};

// The text of the tours of a request over the net of its trip, or why there is none: too many states, or no memory.
fn text_of_tours(
    alloc: Global,
    net: &TimedNet,
    request: Request,
    stops: &Stops,
) -> Result<Vec<u8>, Halt>
    requires plannable { IsPlannable net.now request }
    requires cheap { HasCheapArcs net.now }
    requires stops { All (IsGoodStop net.now) stops.now }
    ensures right { IfOk result (λ text.
        IsTourText (setting_of net.now) request stops.now text.items) }
    ensures few { OnOk result (failed_size (setting_of net.now) stops.now ≡ None) }
    ensures refused { IfErr result
        (StopsAtSize (failed_size (setting_of net.now) stops.now ≡ Some TooManyStates)) }
{
    if !tour_fits(net, stops.as_slice()) {
        return Err(too_many_states());
    }
    match plan_tour(alloc, net, request, stops.as_slice()) {
        Ok(routes) => Ok(tour_text(alloc, &routes)?),
        Err(_) => Err(Halt::NoMemory),
    }
}

// The stops that a table states, at nodes of the network.
fn stops_of(alloc: Global, network: &Network, bytes: &[u8]) -> Result<Stops, LoadFault>
    ensures faultless { OnOk result (stops_fault network.now bytes.now ≡ None) }
    ensures stated { IfOk result (λ stops. stops ≡ stops_in (rows_of bytes.now)) }
    ensures good { IfOk result (All (IsStopAmong network.now.graph.nodes)) }
    ensures refused { IfErr result (StopsStating (stops_fault network.now bytes.now)) }
{
    match read_stops(alloc, bytes, network.graph().node_count()) {
        Ok(stops) => Ok(stops),
        Err(TableFault::BadRow { row, cause }) => Err(LoadFault::Bad(BadInput {
            file: FileKind::Stops,
            row,
            cause,
        })),
        Err(TableFault::OutOfMemory) => Err(LoadFault::OutOfMemory),
    }
}

// The network of the tour's folder, and the stops of its table.
pub fn load_tour<F: Folder>(
    alloc: Global,
    folder: &mut F,
    tour: &Tour,
) -> Result<(Network, Stops), LoadFault>
    ensures faultless { OnOk result (IfTold (F.state folder.old)
        (λ held. tour_fault tour.now held ≡ None)) }
    ensures network { IfOk result (λ loaded. IfTold (F.state folder.old)
        (λ held. loaded.0 ≡ network_held held tour.now.dir)) }
    ensures stops { IfOk result (λ loaded. IfTold (F.state folder.old)
        (λ held. loaded.1 ≡ stops_held tour.now held)) }
    ensures good { IfOk result (λ loaded. All (IsStopAmong loaded.0.graph.nodes) loaded.1) }
    ensures refused { IfErr result (StopsReading (tour_fault tour.now)
        (F.state folder.old) (F.state folder.new)) }
    ensures kept { KeepsFiles (F.state folder.old) (F.state folder.new) }
{
    let table = FileToRead::stops(&tour.stops);
    let (network, bytes) = load_with(alloc, folder, &tour.dir, table)?;
    let stops = stops_of(alloc, &network, bytes.as_slice())?;
    Ok((network, stops))
}

/// The report of a tour of the stops in a table over the files of its folder. Several workers make the net at once; the network is given
/// back before the search. It takes the time and memory of `rested_tours::plan_tour` beside reading.
pub fn report_tour<R: Threads + Sync, F: Folder, G: Gate>(
    rt: &R,
    alloc: Global,
    folder: &mut F,
    tour: &Tour,
    gate: &G,
) -> Result<Report, Halt>
    requires timed { IsTimed tour.now.trip }
    ensures { Ends (tour_meaning tour.now)
        (F.state folder.old) (F.state folder.new) result }
{
    let (network, stops) = load_tour(alloc, folder, tour)?;
    let trip = trip_of(&tour.trip);
    let net = net_for(rt, alloc, network, trip, gate)?;
    laws::tour_texts_agree();
    let text = text_of_tours(alloc, &net, request_of(trip), &stops)?;
    Ok(Report {
        text,
        rejects: false,
    })
}
