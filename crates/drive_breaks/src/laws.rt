// Settings that agree within a window have the same trips that keep a rule, each drive has one stretch, the itineraries of a pair are
// ordered, and a trip has one answer by the first of them.
ghost use Rattle.std.specs.Prelude.{◌≡◌, ◌⊎◌, ◌↔◌, ◌≤◌, ℕ, All, List, Option, reverse};
ghost use Rattle.drive_breaks.specs.Rested.{IsStretch};
ghost use Rattle.drive_breaks.specs.RestedOrder.{ComesRestedBefore, IsFirstRested};
ghost use Rattle.drive_breaks.specs.Words.{AreRightRested, HasTooManyStates};
ghost use Rattle.drive_states.specs.declared.rule.BreakRule.{BreakRule};
ghost use Rattle.route_base.specs.Matching.{StandsFor, IsInWindow};
ghost use Rattle.route_base.specs.Itinerary.{Position, Step, Walks};
ghost use Rattle.route_base.specs.Net.{IsGoodNet, Net, setting_of};
ghost use Rattle.route_base.specs.Setting.{Road, Setting};
ghost use Rattle.route_base.specs.declared.types.Request.{Request};
ghost use Rattle.route_base.specs.declared.types.Route.{Route};
ghost use Rattle.route_base.specs.declared.types.Run.{Run};

use drive_states::states_agree;
use route_base::settings_agree;

/// The law of two settings of which one stands for the other within a window: for each request of the window and each rule both have
/// the same right routes and the same first ones, and there are too many states in both or in neither. The call does nothing.
pub fn rested_trips_agree()
    ensures right { (s z : Setting) (window : Run) (r : Request) (rule : BreakRule)
        → StandsFor s z window → IsInWindow r window
        → (routes : List Route) → AreRightRested s r rule routes ↔ AreRightRested z r rule routes }
    ensures first { (s z : Setting) (window : Run) (r : Request) (rule : BreakRule)
        → StandsFor s z window → IsInWindow r window → (routes : List Route)
        → All (IsFirstRested s r rule) routes ↔ All (IsFirstRested z r rule) routes }
    ensures states { (s z : Setting) (window : Run) (origin : ℕ) (rule : BreakRule)
        → StandsFor s z window
        → HasTooManyStates s origin rule ↔ HasTooManyStates z origin rule }
{
    settings_agree();
    states_agree();
}

/// The law of stretches: behind any steps there is exactly one, so that a rule about the stretch is always about some minutes. The call
/// does nothing.
pub fn one_stretch()
    ensures some { (roads : ℕ → Option Road) (rest : ℕ) (back : List Step) → 1 ≤ rest
        → (x : ℕ) × IsStretch roads rest back x }
    ensures one { (roads : ℕ → Option Road) (rest : ℕ) (back : List Step) (x y : ℕ)
        → IsStretch roads rest back x → IsStretch roads rest back y → x ≡ y }
{}

/// The law that the itineraries of a pair are ordered: over a well-formed net two walks from one position to another are the same, or
/// just one of them comes before the other. The call does nothing.
pub fn itineraries_are_ordered()
    ensures total { (net : Net) (until rest : ℕ) (xs ys : List Step) (p q : Position)
        → IsGoodNet net → 1 ≤ rest
        → Walks (setting_of net) until xs p q → Walks (setting_of net) until ys p q
        → (xs ≡ ys) ⊎ (ComesRestedBefore (setting_of net).road rest (reverse xs) (reverse ys)
        ⊎ ComesRestedBefore (setting_of net).road rest (reverse ys) (reverse xs)) }
    ensures one { (roads : ℕ → Option Road) (rest : ℕ) (xs ys : List Step)
        → ComesRestedBefore roads rest xs ys → ComesRestedBefore roads rest ys xs → ⊥ }
{}

/// The law that a trip under a rule has at most one right answer by the first itinerary of each pair: two lists of right routes that are
/// the first are one, pair by pair and leg by leg. The call does nothing.
pub fn one_rested_answer()
    ensures { (s : Setting) (r : Request) (rule : BreakRule) (xs ys : List Route)
        → AreRightRested s r rule xs → All (IsFirstRested s r rule) xs
        → AreRightRested s r rule ys → All (IsFirstRested s r rule) ys
        → xs ≡ ys }
{}
