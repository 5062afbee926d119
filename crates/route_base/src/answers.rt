// The laws that a request has a right answer, and only one.
ghost use Rattle.std.specs.Prelude.{◌≡◌, ◌≤◌, List};
ghost use Rattle.route_base.specs.Setting.{Setting};
ghost use Rattle.route_base.specs.Front.{IsRight};
ghost use Rattle.route_base.specs.Legs.{CostsFit};
ghost use Rattle.route_base.specs.Net.{IsGoodNet, Net, setting_of};
ghost use Rattle.route_base.specs.declared.types.Request.{Request};
ghost use Rattle.route_base.specs.declared.types.Route.{Route};

/// The law that a request has at most one right answer: two lists of right routes are one, pair by pair and leg by leg. The call
/// does nothing.
pub fn one_answer()
    ensures { (s : Setting) (r : Request) (xs ys : List Route) → IsRight s r xs → IsRight s r ys
        → xs ≡ ys }
{}

/// The law that a request over a well-formed net whose costs fit has a right answer: so it has exactly one, by `one_answer`. The call
/// does nothing.
pub fn some_answer()
    ensures { (net : Net) (r : Request) → IsGoodNet net → r.depart ≤ r.until
        → CostsFit (setting_of net) r
        → (routes : List Route) × IsRight (setting_of net) r routes }
{}
