// The front of the walks over the states of rested tours is that of rested tours, and without stops that of rested trips; a request has
// one answer, which is the same over settings that agree.
ghost use Rattle.std.specs.Prelude.{◌≡◌, ◌↔◌, ◌<◌, ◌≤◌, ◌^◌, ℕ, List, [], Option, None, Some, map, length};
ghost use Rattle.drive_states.specs.declared.rule.BreakRule.{BreakRule};
ghost use Rattle.front_transport.specs.ParetoFronts.{IsParetoFront, ArrivesBefore};
ghost use Rattle.rested_tours.specs.Words.{tour_ruler, as_tour_leg};
ghost use Rattle.rested_tours.specs.Words.{AreRightRestedTours, IsRestedTourFront, AchievesRestedTour, IsRestedFront, AchievesRested};
ghost use Rattle.route_base.specs.Front.{IsNoWorse};
ghost use Rattle.route_base.specs.Net.{at_number};
ghost use Rattle.route_base.specs.Setting.{Setting};
ghost use Rattle.route_base.specs.declared.types.Bound.{Bound};
ghost use Rattle.route_base.specs.declared.types.Leg.{Leg};
ghost use Rattle.route_base.specs.declared.types.Pair.{Pair};
ghost use Rattle.route_base.specs.Matching.{StandsFor, IsInWindow};
ghost use Rattle.route_base.specs.declared.types.Request.{Request};
ghost use Rattle.route_base.specs.declared.types.Run.{Run};
ghost use Rattle.state_dominance.specs.Inside.Dominance.{IsAchievedIn};
ghost use Rattle.state_dominance.specs.Inside.Product.{IsBase, task_over};
ghost use Rattle.stop_tour.specs.declared.stops.Stop.{Stop};
ghost use Rattle.stop_tour.specs.declared.stops.TourRoute.{TourRoute};

/// The law that the front over the states of the ruler of rested tours is the front of rested tours, if no arc has the number 0, as in
/// each net. The call does nothing.
pub fn rested_tours_are_found()
    ensures { (s : Setting) (r : Request) (stops : List Stop) (rule : BreakRule) (base : ℕ)
        (bound : ℕ → ℕ → Option Bound) (pairs : List Pair)
        → s.road 0 ≡ None
        → ((i : ℕ) (stop : Stop) → at_number stops i ≡ Some stop → 1 ≤ stop.service)
        → length stops < 2 ^ 32 → 1 ≤ rule.rest → IsBase s (tour_ruler stops rule) base → r.origin.0 < base
        → r.depart ≤ r.until
        → IsParetoFront IsNoWorse ArrivesBefore (IsAchievedIn (task_over s
        (tour_ruler stops rule) base r.origin.0 r.goal.0 r.depart r.until bound)) pairs
        → IsRestedTourFront s r stops rule pairs }
{}

/// The law that rested tours without stops are rested trips: they have one front, and the same legs achieve a pair. The call does nothing.
pub fn no_stops_is_the_rested_trip()
    ensures front { (s : Setting) (r : Request) (rule : BreakRule) (pairs : List Pair)
        → IsRestedTourFront s r [] rule pairs ↔ IsRestedFront s r rule pairs }
    ensures legs { (s : Setting) (r : Request) (rule : BreakRule) (pair : Pair) (legs : List Leg)
        → AchievesRestedTour s r [] rule (record {
          pair = pair;
          legs = map as_tour_leg legs;
        })
        ↔ AchievesRested s r rule (record { pair = pair; legs = legs }) }
{}

/// The law of two settings of which one stands for the other within a window: for each request of the window, any stops and any rule both
/// have the same right rested tours. The call does nothing.
pub fn rested_tours_agree()
    ensures { (s z : Setting) (window : Run) (r : Request) (stops : List Stop) (rule : BreakRule)
        → StandsFor s z window → IsInWindow r window
        → (routes : List TourRoute)
        → AreRightRestedTours s r stops rule routes ↔ AreRightRestedTours z r stops rule routes }
{}

/// The law that a tour under a rule has at most one right answer: two lists of right tours are one, pair by pair and leg by leg. The call
/// does nothing.
pub fn one_rested_tour_answer()
    ensures { (s : Setting) (r : Request) (stops : List Stop) (rule : BreakRule)
        → (xs ys : List TourRoute)
        → AreRightRestedTours s r stops rule xs → AreRightRestedTours s r stops rule ys → xs ≡ ys }
{}
