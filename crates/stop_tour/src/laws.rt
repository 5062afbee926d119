// Laws of the definitions that need no call.
ghost use Rattle.std.specs.List.{AllZip};
ghost use Rattle.std.specs.Prelude.{◌≡◌, ◌↔◌, ◌-◌, ◌≤◌, ℕ, All, List, [], Some, None};
ghost use Rattle.route_base.specs.declared.types.Pair.{Pair};
ghost use Rattle.route_base.specs.declared.types.Request.{Request};
ghost use Rattle.route_base.specs.declared.types.Run.{Run};
ghost use Rattle.front_transport.specs.declared.limits.TheConstants.{MOST_STATES};
ghost use Rattle.route_base.specs.declared.limits.TheConstants.{LONGEST_HORIZON};
ghost use Rattle.stop_tour.specs.Words.{AreRightTours, IsFront, IsInWindow, IsTourFront, Setting, StandsFor, tour_size_in, tour_size_of};
ghost use Rattle.stop_tour.specs.Words.{HasCheapArcs, IsGoodNet, IsGoodRequest, IsGoodStop, Net, setting_of};
ghost use Rattle.stop_tour.specs.Words.{first_table_fault, records_of, rows_of};
ghost use Rattle.stop_tour.specs.Words.{stop_of, stops_in, stops_schema};
ghost use Rattle.stop_tour.specs.declared.stops.Stop.{Stop};
ghost use Rattle.stop_tour.specs.declared.stops.TourRoute.{TourRoute};

/// The law of two settings of which one stands for the other within a window: for each request of the window and any stops both have
/// the same right tours, and the same size. The call does nothing.
pub fn tours_agree()
    ensures right { (s z : Setting) (window : Run) (r : Request) (stops : List Stop)
        → StandsFor s z window → IsInWindow r window
        → (routes : List TourRoute) → AreRightTours s r stops routes ↔ AreRightTours z r stops routes }
    ensures size { (s z : Setting) (window : Run) (stops : List Stop) → StandsFor s z window
        → tour_size_in s stops ≡ tour_size_in z stops }
{}

/// The law that a tour has at most one right answer: two lists of right tours are one, pair by pair and leg by leg. The call does
/// nothing.
pub fn one_tour_answer()
    ensures { (s : Setting) (r : Request) (stops : List Stop) (xs ys : List TourRoute)
        → AreRightTours s r stops xs → AreRightTours s r stops ys
        → xs ≡ ys }
{}

/// The law that a request for tours over a well-formed net whose layers fit has a right list. The call does nothing.
pub fn some_tour_answer()
    ensures { (net : Net) (r : Request) (stops : List Stop) → IsGoodNet net → IsGoodRequest net r
        → r.depart ≤ r.until → r.until - r.depart ≤ LONGEST_HORIZON → All (IsGoodStop net) stops
        → HasCheapArcs net → tour_size_of net stops ≤ MOST_STATES
        → (routes : List TourRoute) × AreRightTours (setting_of net) r stops routes }
{}

/// The law that tours without stops have the Pareto front of the trip. The call does nothing.
pub fn no_stops_is_the_trip()
    ensures { (s : Setting) (r : Request) (pairs : List Pair)
        → IsTourFront s r [] pairs ↔ IsFront s r pairs }
{}

/// The law of a table of stops without a fault: each data row has its stop, in their order. The call does nothing.
pub fn each_row_has_its_stop()
    ensures { (nodes : ℕ) (bytes : List ℕ)
        → first_table_fault (stops_schema nodes) (records_of bytes) ≡ None
        → AllZip (λ row stop. stop_of row ≡ Some stop) (rows_of bytes) (stops_in (rows_of bytes)) }
{}
