// The command that plans a trip with driver breaks.
ghost use Rattle.std.specs.Prelude.{IfOk, OnOk, IfErr};
ghost use Rattle.front_desk.specs.Words.{HasGoodRule, IsBreaksText, HasManyStates, breaks_meaning};
ghost use Rattle.front_desk.specs.Words.{request_of, IsTimed, IsPlannable, StopsAtSize, Ends};
ghost use Rattle.front_transport.specs.CheapArcs.{HasCheapArcs};
ghost use Rattle.route_base.specs.Net.{setting_of};

use crate::laws;
use crate::networks::net_for;
use crate::outcome::{Halt, Report, too_many_states};
use crate::requests::{request_of, trip_of};
use drive_breaks::{BreakFault, BreakRule};
use front_words::Breaks;
use network_folder::load_network;
use plan_report::plain_text;
use rested_tours::plan_rested;
use route_base::{Folder, Gate, TimedNet};
use std::alloc::Global;
use std::thread::Threads;

// The text of a trip with breaks over its net, or why there is none: too many states, or no memory.
fn rested_text(alloc: Global, net: &TimedNet, breaks: &Breaks) -> Result<Vec<u8>, Halt>
    requires plannable { IsPlannable net.now (request_of breaks.now.trip) }
    requires cheap { HasCheapArcs net.now }
    requires rule { HasGoodRule breaks.now }
    ensures right { IfOk result (λ text.
        IsBreaksText (setting_of net.now) breaks.now text.items) }
    ensures few { OnOk result (HasManyStates (setting_of net.now) breaks.now → ⊥) }
    ensures refused { IfErr result
        (StopsAtSize (HasManyStates (setting_of net.now) breaks.now)) }
{
    let request = request_of(trip_of(&breaks.trip));
    let rule = BreakRule {
        drive: breaks.drive,
        rest: breaks.rest,
    };
    match plan_rested(alloc, net, request, rule) {
        Ok(routes) => Ok(plain_text(alloc, &routes)?),
        Err(BreakFault::TooManyStates) => Err(too_many_states()),
        Err(BreakFault::OutOfMemory) => Err(Halt::NoMemory),
    }
}

/// The report of a trip with driver breaks over the files of its folder. Several workers make the net at once; the network is given back
/// before the search. It takes the time and memory of `plan_rested` beside reading.
pub fn report_breaks<R: Threads + Sync, F: Folder, G: Gate>(
    rt: &R,
    alloc: Global,
    folder: &mut F,
    breaks: &Breaks,
    gate: &G,
) -> Result<Report, Halt>
    requires timed { IsTimed breaks.now.trip }
    requires rule { HasGoodRule breaks.now }
    ensures { Ends (breaks_meaning breaks.now)
        (F.state folder.old) (F.state folder.new) result }
{
    let network = load_network(alloc, folder, &breaks.dir)?;
    let net = net_for(rt, alloc, network, trip_of(&breaks.trip), gate)?;
    laws::breaks_agree();
    let text = rested_text(alloc, &net, breaks)?;
    Ok(Report {
        text,
        rejects: false,
    })
}
