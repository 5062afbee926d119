// The law by which a caller meets the premise on costs over states.
ghost use Rattle.std.specs.Prelude.{◌≡◌, ◌+◌, ◌*◌, ◌≤◌, ℕ, Some};
ghost use Rattle.route_base.specs.Net.{Net, IsGoodNet, setting_of};
ghost use Rattle.route_base.specs.Setting.{Road};
ghost use Rattle.route_base.specs.declared.limits.TheConstants.{DEAREST_MINUTE, LONGEST_HORIZON};
ghost use Rattle.route_base.specs.declared.types.Request.{Request};
ghost use Rattle.state_dominance.specs.Inside.Product.{Ruler};
ghost use Rattle.ruled_search.specs.Routes.{RuledCostsFit};

/// The law that the costs of a request of at most `LONGEST_HORIZON` minutes fit over the states of any ruler, where the roads of the net cost
/// at most `DEAREST_MINUTE` thousandths a minute. So a caller meets the premise `fit` of `plan_with_bounds`. The call does nothing.
pub fn ruled_costs_fit()
    ensures { (net : Net) (r : Ruler) (base : ℕ) (request : Request) → IsGoodNet net
        → ((a : ℕ) (road : Road) → (setting_of net).road a ≡ Some road
        → road.cost ≤ DEAREST_MINUTE * road.minutes)
        → request.depart ≤ request.until → request.until ≤ request.depart + LONGEST_HORIZON
        → RuledCostsFit (setting_of net) r base request }
{}
