// Settings that agree within a window answer its requests alike.
ghost use Rattle.std.specs.Prelude.{◌↔◌, List};
ghost use Rattle.route_base.specs.Front.{IsFront, IsRight};
ghost use Rattle.route_base.specs.Itinerary.{Position, Step, Walks};
ghost use Rattle.route_base.specs.Legs.{start_of, CostsFit};
ghost use Rattle.route_base.specs.Matching.{StandsFor, IsInWindow};
ghost use Rattle.route_base.specs.Setting.{Setting};
ghost use Rattle.route_base.specs.declared.types.Pair.{Pair};
ghost use Rattle.route_base.specs.declared.types.Request.{Request};
ghost use Rattle.route_base.specs.declared.types.Route.{Route};
ghost use Rattle.route_base.specs.declared.types.Run.{Run};

/// The law of two settings of which one stands for the other within a window: for each request of the window both have the
/// same lawful steps from the origin, the same Pareto front and the same right routes. The call does nothing.
pub fn settings_agree()
    ensures walks { (s z : Setting) (window : Run) (r : Request) → StandsFor s z window
        → IsInWindow r window
        → (steps : List Step) (p : Position) → Walks s r.until steps (start_of r) p ↔ Walks z r.until steps (start_of r) p }
    ensures front { (s z : Setting) (window : Run) (r : Request) → StandsFor s z window
        → IsInWindow r window
        → (pairs : List Pair) → IsFront s r pairs ↔ IsFront z r pairs }
    ensures right { (s z : Setting) (window : Run) (r : Request) → StandsFor s z window
        → IsInWindow r window
        → (routes : List Route) → IsRight s r routes ↔ IsRight z r routes }
    ensures fit { (s z : Setting) (window : Run) (r : Request) → StandsFor s z window
        → IsInWindow r window
        → CostsFit s r ↔ CostsFit z r }
{}
