// The laws of the net of a trip: what is right over the net is right over the network's roads, for which it stands.
ghost use Rattle.std.specs.Prelude.{◌≡◌, ◌↔◌, List, Option, ℕ};
ghost use Rattle.drive_states.specs.declared.rule.BreakRule.{BreakRule as Rule};
ghost use Rattle.front_desk.specs.Trips.{Trip as TripModel};
ghost use Rattle.front_desk.specs.Words.{HasManyStates, IsBreaksText, IsFirstBetter, IsJudged, IsLateText, IsReady};
ghost use Rattle.front_desk.specs.Words.{IsGoodNetwork, IsGoodTrip, IsRestedTourText, IsTimed, IsTourText, IsTripNet, failed_size};
ghost use Rattle.front_desk.specs.Words.{request_of, trip_in, trip_setting, trip_window};
ghost use Rattle.front_desk.specs.declared.outcome.Report.{Report as ReportModel};
ghost use Rattle.front_desk.specs.declared.plan.Planned.{Planned as PlannedModel};
ghost use Rattle.front_words.specs.declared.breaks.Breaks.{Breaks as BreaksModel};
ghost use Rattle.front_words.specs.declared.plan.Plan.{Plan as PlanModel};
ghost use Rattle.network_tables.specs.NetworkModel.{NetworkModel};
ghost use Rattle.route_base.specs.Matching.{StandsFor};
ghost use Rattle.route_base.specs.Net.{Net, setting_of};
ghost use Rattle.route_base.specs.declared.types.Pair.{Pair as PairModel};
ghost use Rattle.stop_tour.specs.declared.stops.Stop.{Stop};

use crate::requests::Trip;
use network_tables::Network;
use route_base::TimedNet;

/// The law that a net which stands for the network's roads in the trip's minutes is the net of the trip. The call does nothing.
pub fn is_trip_net(network: &Network, trip: Trip<'_>, net: &TimedNet)
    requires network { IsGoodNetwork network.now }
    requires good { IsGoodTrip network.now.graph.nodes (trip_in trip) }
    requires timed { IsTimed (trip_in trip) }
    requires stands { StandsFor (setting_of net.now) (trip_setting network.now (trip_in trip))
        (trip_window (trip_in trip)) }
    ensures { IsTripNet network.now (trip_in trip.entry) net.now }
{
    let graph = network.graph();
    let _nodes = graph.node_count();
    route_base::settings_agree();
    plan_certificate::certificates_agree();
}

/// The law of the net of a trip: a plan that is ready over the net is ready over the network's roads. The call does nothing.
pub fn plans_agree()
    ensures { (network : NetworkModel) (net : Net) (plan : PlanModel) (planned : PlannedModel)
        → IsTripNet network plan.trip net
        → IsReady (setting_of net) plan planned
        → IsReady (trip_setting network plan.trip) plan planned }
{
    route_base::settings_agree();
    certificate_check::verdicts_agree();
    plan_certificate::certificates_agree();
    plan_report::reports_agree();
}

/// The law of the net of a trip: a report that judges bytes over the net judges them over the network's roads. The call does nothing.
pub fn judgements_agree()
    ensures { (network : NetworkModel) (net : Net) (trip : TripModel) (bytes : List ℕ)
        → (report : ReportModel) → IsTripNet network trip net
        → IsJudged (setting_of net) (request_of trip) bytes report
        → IsJudged (trip_setting network trip) (request_of trip) bytes report }
{
    route_base::settings_agree();
    certificate_check::verdicts_agree();
}

/// The law of the net of a trip: the first better pair over the net is that over the network's roads. The call does nothing.
pub fn better_pairs_agree()
    ensures { (network : NetworkModel) (net : Net) (trip : TripModel) (pair : PairModel)
        → (better : Option PairModel) → IsTripNet network trip net
        → IsFirstBetter (setting_of net) (request_of trip) pair better
        → IsFirstBetter (trip_setting network trip) (request_of trip) pair better }
{
    route_base::settings_agree();
}

/// The law of the net of a trip: a text that reports latest departures over the net reports them over the network's roads. The call
/// does nothing.
pub fn late_texts_agree()
    ensures { (network : NetworkModel) (net : Net) (trip : TripModel) (text : List ℕ)
        → IsTripNet network trip net
        → IsLateText (setting_of net) (request_of trip) text
        → IsLateText (trip_setting network trip) (request_of trip) text }
{
    latest_departure::late_routes_agree();
}

/// The law of the net of a trip: a text that reports right tours over the net reports them over the network's roads, and the size is too
/// large in both or in neither. The call does nothing.
pub fn tour_texts_agree()
    ensures text { (network : NetworkModel) (net : Net) (trip : TripModel) (stops : List Stop)
        → (text : List ℕ) → IsTripNet network trip net
        → IsTourText (setting_of net) (request_of trip) stops text
        → IsTourText (trip_setting network trip) (request_of trip) stops text }
    ensures size { (network : NetworkModel) (net : Net) (trip : TripModel) (stops : List Stop)
        → IsTripNet network trip net
        → failed_size (setting_of net) stops ≡ failed_size (trip_setting network trip) stops }
{
    stop_tour::tours_agree();
}

/// The law of the net of a trip: a text that reports right tours under a rule over the net reports them over the network's roads, and the
/// size is too large in both or in neither. The call does nothing.
pub fn rested_texts_agree()
    ensures text { (network : NetworkModel) (net : Net) (trip : TripModel) (stops : List Stop)
        → (rule : Rule) (text : List ℕ) → IsTripNet network trip net
        → IsRestedTourText (setting_of net) (request_of trip) stops rule text
        → IsRestedTourText (trip_setting network trip) (request_of trip) stops rule text }
    ensures size { (network : NetworkModel) (net : Net) (trip : TripModel) (stops : List Stop)
        → IsTripNet network trip net
        → failed_size (setting_of net) stops ≡ failed_size (trip_setting network trip) stops }
{
    rested_tours::rested_tours_agree();
    stop_tour::tours_agree();
}

/// The law of the net of a trip: a text that reports right routes over the net reports them over the network's roads, and there are too
/// many states in both or in neither. The call does nothing.
pub fn breaks_agree()
    ensures text { (network : NetworkModel) (net : Net) (breaks : BreaksModel) (text : List ℕ)
        → IsTripNet network breaks.trip net → IsBreaksText (setting_of net) breaks text
        → IsBreaksText (trip_setting network breaks.trip) breaks text }
    ensures states { (network : NetworkModel) (net : Net) (breaks : BreaksModel)
        → IsTripNet network breaks.trip net
        → HasManyStates (setting_of net) breaks
        ↔ HasManyStates (trip_setting network breaks.trip) breaks }
{
    drive_breaks::rested_trips_agree();
}
