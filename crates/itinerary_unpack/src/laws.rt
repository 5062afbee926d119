// The law by which a caller of the engine meets its premise on costs.
ghost use Rattle.std.specs.Prelude.{◌≡◌, ◌+◌, ◌*◌, ◌≤◌, ℕ, Some};
ghost use Rattle.route_base.specs.Legs.{CostsFit};
ghost use Rattle.route_base.specs.Net.{Net, IsGoodNet, setting_of};
ghost use Rattle.route_base.specs.Setting.{Road};
ghost use Rattle.route_base.specs.declared.limits.TheConstants.{DEAREST_MINUTE, LONGEST_HORIZON};
ghost use Rattle.route_base.specs.declared.types.Request.{Request};

/// The law that the costs of a request of at most `LONGEST_HORIZON` minutes fit over a good net whose roads cost at most
/// `DEAREST_MINUTE` thousandths a minute. So a caller meets the premise `fit` of `front`, of `search`, of `unpack` and of
/// `certify`. The call does nothing.
pub fn costs_fit()
    ensures { (net : Net) (r : Request) → IsGoodNet net
        → ((a : ℕ) (road : Road) → (setting_of net).road a ≡ Some road
        → road.cost ≤ DEAREST_MINUTE * road.minutes)
        → r.depart ≤ r.until → r.until ≤ r.depart + LONGEST_HORIZON
        → CostsFit (setting_of net) r }
{}
