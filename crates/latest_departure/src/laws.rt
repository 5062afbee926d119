// Settings of which one stands for the other have the same latest departures, and a request has one right list of them.
ghost use Rattle.std.specs.Prelude.{◌≡◌, ◌↔◌, ◌-◌, ◌≤◌, ◌<◌, List};
ghost use Rattle.latest_departure.specs.Words.{AreRightLate, HasCheapArcs, IsGoodRequest, setting_of};
ghost use Rattle.latest_departure.specs.declared.routes.LateRoute.{LateRoute};
ghost use Rattle.route_base.specs.Net.{IsGoodNet, Net};
ghost use Rattle.route_base.specs.declared.limits.TheConstants.{LONGEST_HORIZON};
ghost use Rattle.route_base.specs.Matching.{StandsFor, IsInWindow};
ghost use Rattle.route_base.specs.Setting.{Setting};
ghost use Rattle.route_base.specs.declared.types.Request.{Request};
ghost use Rattle.route_base.specs.declared.types.Run.{Run};

/// The law of two settings of which one stands for the other within a window: for each request of the window both have the same
/// right late routes. The call does nothing.
pub fn late_routes_agree()
    ensures { (s z : Setting) (window : Run) (r : Request) → StandsFor s z window
        → IsInWindow r window
        → (routes : List LateRoute) → AreRightLate s r routes ↔ AreRightLate z r routes }
{}

/// The law that a request has at most one right list of late routes: two of them are one, pair by pair and leg by leg. The call does
/// nothing.
pub fn one_late_answer()
    ensures { (s : Setting) (r : Request) (xs ys : List LateRoute) → AreRightLate s r xs
        → AreRightLate s r ys
        → xs ≡ ys }
{}

/// The law that a request for latest departures over a well-formed net has a right list. The call does nothing.
pub fn some_late_answer()
    ensures { (net : Net) (r : Request) → IsGoodNet net → IsGoodRequest net r → r.depart ≤ r.until
        → r.until - r.depart < LONGEST_HORIZON → HasCheapArcs net
        → (routes : List LateRoute) × AreRightLate (setting_of net) r routes }
{}
