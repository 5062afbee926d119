// The Pareto front of a request is one of the general form.
ghost use Rattle.std.specs.Prelude.{◌↔◌, List};
ghost use Rattle.front_transport.specs.Words.{IsParetoFront, ArrivesBefore, IsFront, IsNoWorse};
ghost use Rattle.front_transport.specs.Words.{IsAchieved, Setting};
ghost use Rattle.route_base.specs.declared.types.Pair.{Pair};
ghost use Rattle.route_base.specs.declared.types.Request.{Request};

/// The law that the front of arrival and cost is the Pareto front of the achieved pairs, by rising arrival. The call does nothing.
pub fn fronts_are_pareto_fronts()
    ensures { (s : Setting) (r : Request) (pairs : List Pair)
        → IsFront s r pairs ↔ IsParetoFront IsNoWorse ArrivesBefore (IsAchieved s r) pairs }
{}
