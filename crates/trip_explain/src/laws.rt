// Laws of the definitions that need no call.
ghost use Rattle.std.specs.Prelude.{◌≡◌, ◌↔◌, ℕ, None, List, true};
ghost use Rattle.route_base.specs.Front.{Dominates, IsAchieved, IsFront, IsUndominated};
ghost use Rattle.route_base.specs.Legs.{Achieves};
ghost use Rattle.route_base.specs.Setting.{Setting};
ghost use Rattle.route_base.specs.declared.types.Leg.{Leg};
ghost use Rattle.route_base.specs.declared.types.Pair.{Pair};
ghost use Rattle.route_base.specs.declared.types.Request.{Request};
ghost use Rattle.vehicle_classes.specs.VehicleModel.{VehicleModel};
ghost use Rattle.network_tables.specs.NetworkModel.{NetworkModel};
ghost use Rattle.network_tables.specs.RoadSetting.{road_setting};
ghost use Rattle.trip_explain.specs.Dominators.{dominates, first_dominator};
ghost use Rattle.trip_explain.specs.Explanations.{IsUnlawfulAt};
ghost use Rattle.trip_explain.specs.declared.explanation.Why.{Why};

/// The law that legs which are unlawful somewhere achieve no pair. The call does nothing.
pub fn never_both()
    ensures { (network : NetworkModel) (vehicle : VehicleModel) (r : Request) (legs : List Leg)
        → (number t : ℕ) (why : Why) (pair : Pair)
        → IsUnlawfulAt network vehicle r legs number t why
        → Achieves (road_setting network vehicle) r legs pair → ⊥ }
{}

/// The law that the test `dominates` tells whether a pair dominates another. The call does nothing.
pub fn dominates_exactly()
    ensures { (p q : Pair) → (dominates p q ≡ true) ↔ Dominates p q }
{}

/// The law that no pair of a Pareto front dominates an achieved pair exactly where no achieved pair does. The call does nothing.
pub fn undominated_exactly()
    ensures { (s : Setting) (r : Request) (pairs : List Pair) (pair : Pair)
        → IsFront s r pairs → IsAchieved s r pair
        → (first_dominator pairs pair ≡ None) ↔ IsUndominated s r pair }
{}

/// The law that legs are unlawful at one leg and one minute, for one reason. The call does nothing.
pub fn one_explanation()
    ensures { (network : NetworkModel) (vehicle : VehicleModel) (r : Request) (legs : List Leg)
        → (n m t u : ℕ) (why other : Why)
        → IsUnlawfulAt network vehicle r legs n t why
        → IsUnlawfulAt network vehicle r legs m u other
        → (n ≡ m) × ((t ≡ u) × (why ≡ other)) }
{}
