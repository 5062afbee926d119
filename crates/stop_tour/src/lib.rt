//! Trips with stops in a given order, each served within its window: the Pareto front of arrival and cost.
//!
//! The law is `AreRightTours` of `specs/Tours`, a clause of `tour` and, for engines that take bounds, of `tour_with`: the pairs are the
//! Pareto front of all lawful tours, which drive and wait as an itinerary of `route_base` does and serve the stops one after another, and
//! each pair has the legs of its first such tour, so that there is at most one right answer (`one_tour_answer`). There are too many states
//! exactly where the number of stops plus one, times the number of nodes and arcs, is above `MOST_STATES` of `front_transport`.
//! `read_stops` reads the stops of a table, whose rows and causes `specs/StopTable` has, each with a stop of its own
//! (`each_row_has_its_stop`), and `tour_text` writes tours as `specs/TourText` says. Tours and sizes are the same over settings that agree
//! (`tours_agree`), and tours without stops have the front of the trip (`no_stops_is_the_trip`).
//!
//! `layers` builds a net with one layer for each number of served stops. A service is an arc from a layer to the next, closed outside
//! the stop's window, and the arcs of a layer are closed as soon as it is too late for the stops that are left, which no bound of an
//! engine can tell. `layer_bounds` gives each node of a layer its bounds over the roads to the layer's stop, and adds those from there
//! on, so that each search for bounds goes over the roads alone and not over all layers. So an engine's front over the layers is that
//! of the tours (`tours`), and an arc's number tells which arc is driven or which stop is served.
//!
//! `specs/Inside` is no law: it says what the layered net is (`Layers`), what the bounds of its nodes are (`LayerBounds`) and how its
//! steps are read (`Unlayering`). In `proofs/`, `LayerPlaces` is about numbers in layers, `LayerLists` about their closed runs,
//! `Windows` about services, `GoodLayers` and `MadeTour` about the net, `LayerBounds` about bounds along its arcs, `Layered` about
//! walks over it, `FirstOverLayers` about their order, `TourFronts` about fronts, and `Unlayered` about legs.
#![tactic(auto)]

mod laws;
mod layer_bounds;
mod layers;
mod limits;
mod stop_table;
mod stops;
mod text;
mod tours;

pub use laws::{
    each_row_has_its_stop, no_stops_is_the_trip, one_tour_answer, some_tour_answer, tours_agree,
};
pub use limits::MOST_STOPS;
pub use stop_table::read_stops;
pub use stops::{Stop, Stops, TourFault, TourLeg, TourLegs, TourRoute, TourRoutes};
pub use text::tour_text;
pub use tours::{tour, tour_fits, tour_with};
