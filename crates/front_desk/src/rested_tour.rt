// The command that plans a tour of stops under a break rule.
ghost use Rattle.std.specs.Prelude.{◌≡◌, None, Some, All, IfOk, OnOk, IfErr};
ghost use Rattle.front_desk.specs.Words.{HasGoodTourRule, IsRestedTourText, failed_size, rested_tour_meaning, tour_rule_of};
ghost use Rattle.front_desk.specs.Words.{request_of, IsTimed, IsPlannable, StopsAtSize, Ends};
ghost use Rattle.front_transport.specs.CheapArcs.{HasCheapArcs};
ghost use Rattle.route_base.specs.Net.{setting_of};
ghost use Rattle.route_base.specs.declared.faults.RequestFault.TheVariants.{TooManyStates};
ghost use Rattle.stop_tour.specs.Tours.{IsGoodStop};

use crate::laws;
use crate::networks::net_for;
use crate::outcome::{Halt, Report, too_many_states};
use crate::requests::{request_of, trip_of};
use crate::tour::load_tour;
use drive_breaks::BreakRule;
use front_words::RestedTour;
use rested_tours::plan_rested_tour;
use route_base::{Folder, Gate, Request, TimedNet};
use std::alloc::Global;
use std::thread::Threads;
use stop_tour::{Stops, tour_fits, tour_text};

// The text of the tours of a request under a rule over the net of its trip, or why there is none: too many states, or no memory.
fn rested_tour_text(
    alloc: Global,
    net: &TimedNet,
    request: Request,
    stops: &Stops,
    rested: &RestedTour,
) -> Result<Vec<u8>, Halt>
    requires plannable { IsPlannable net.now request }
    requires cheap { HasCheapArcs net.now }
    requires stops { All (IsGoodStop net.now) stops.now }
    requires rule { HasGoodTourRule rested.now }
    ensures right { IfOk result (λ text. IsRestedTourText (setting_of net.now)
        request stops.now (tour_rule_of rested.now) text.items) }
    ensures few { OnOk result (failed_size (setting_of net.now) stops.now ≡ None) }
    ensures refused { IfErr result
        (StopsAtSize (failed_size (setting_of net.now) stops.now ≡ Some TooManyStates)) }
{
    let rule = BreakRule {
        drive: rested.drive,
        rest: rested.rest,
    };
    if !tour_fits(net, stops.as_slice()) {
        return Err(too_many_states());
    }
    match plan_rested_tour(alloc, net, request, stops.as_slice(), rule) {
        Ok(routes) => Ok(tour_text(alloc, &routes)?),
        Err(_) => Err(Halt::NoMemory),
    }
}

/// The report of a tour of the stops in a table under a break rule, over the files of its folder. Several workers make the net at once; the
/// network is given back before the search. It takes the time and memory of `rested_tours::plan_rested_tour` beside reading.
pub fn report_rested_tour<R: Threads + Sync, F: Folder, G: Gate>(
    rt: &R,
    alloc: Global,
    folder: &mut F,
    rested: &RestedTour,
    gate: &G,
) -> Result<Report, Halt>
    requires timed { IsTimed rested.now.tour.trip }
    requires rule { HasGoodTourRule rested.now }
    ensures { Ends (rested_tour_meaning rested.now)
        (F.state folder.old) (F.state folder.new) result }
{
    let (network, stops) = load_tour(alloc, folder, &rested.tour)?;
    let trip = trip_of(&rested.tour.trip);
    let net = net_for(rt, alloc, network, trip, gate)?;
    laws::rested_texts_agree();
    let text = rested_tour_text(alloc, &net, request_of(trip), &stops, rested)?;
    Ok(Report {
        text,
        rejects: false,
    })
}
