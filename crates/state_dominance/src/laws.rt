// What a search with dominance keeps, and what it has found where nothing is pending.
ghost use Rattle.std.specs.Prelude.{◌≡◌, ◌⊎◌, ◌≤◌, ◌<◌, ℕ, List, Option, Some, None, true, false, Contains, length, slice_get};
ghost use Rattle.state_dominance.specs.Words.{Task, Progress, IsSimulation, AreBoundsAlong, IsSearching, IsResting};
ghost use Rattle.state_dominance.specs.Words.{IsAchievedIn, IsParetoFront, IsNoWorse, ArrivesBefore, no_part, point};
ghost use Rattle.state_dominance.specs.Words.{TakesOffer, TakesPart, IsOffer, IsWide, IsNarrowed, IsFirstOffer, IsDominated, DrivesRelaxed};
ghost use Rattle.state_dominance.specs.Inside.Dominance.{IsRelaxedIn, IsSurpassed, Reaches};
ghost use Rattle.route_base.specs.Itinerary.{Position, Step, Drives, Walks};
ghost use Rattle.route_base.specs.declared.types.Pair.{Pair};
ghost use Rattle.state_dominance.specs.Inside.Widening.{IsKnownPart, IsDriven, IsStartAlone, IsCleared, IsClosed};
ghost use Rattle.propagation.specs.Inside.Invariants.{IsBlank};
ghost use Rattle.state_dominance.specs.NoRule.{no_rule};
ghost use Rattle.state_dominance.specs.OneRule.{one_rule};
ghost use Rattle.state_dominance.specs.Inside.Product.{Service};
ghost use Rattle.state_dominance.specs.Words.{HasBest, AreReducedSums, IsOutdone};
ghost use Rattle.state_dominance.specs.Inside.Product.{code};
ghost use Rattle.state_dominance.specs.Serving.{serving, served_limit, IsFirstBest};
ghost use Rattle.state_dominance.specs.Words.{Ruler, IsSimulating, IsFitting, IsStaged, IsBase, AreLatest, AreRuledBounds, task_by_latest};
ghost use Rattle.route_base.specs.Setting.{Setting};
ghost use Rattle.route_base.specs.declared.types.Bound.{Bound};

/// The law that the pairs are the front where nothing is pending. The call does nothing.
pub fn finished_is_front()
    ensures { (k : Task) (now : Progress) → IsSimulation k → AreBoundsAlong k
        → k.start.minute ≤ k.until → IsResting k now
        → ((v t : ℕ) → now.pending v t ≡ false)
        → IsParetoFront IsNoWorse ArrivesBefore (IsAchievedIn k) now.pairs }
{}

/// The law that where nothing is pending, each position on a walk to a pair, than which none that is reached is better, is known with its
/// cost. The call does nothing.
pub fn best_ways_are_known()
    ensures { (k : Task) (now : Progress) → IsSimulation k → AreBoundsAlong k
        → k.start.minute ≤ k.until → IsResting k now
        → ((v t : ℕ) → now.pending v t ≡ false)
        → (pair : Pair) → Contains now.pairs pair → (p : Position) → Reaches k p
        → (after : List Step) (g : ℕ) → k.goal g ≡ true
        → Walks k.setting k.until after p (point g pair.arrival pair.cost)
        → ((u x : ℕ) → k.no_worse u p.node ≡ true → x ≤ p.cost
        → Reaches k (point u p.minute x) → (u ≡ p.node) × (x ≡ p.cost))
        → now.cost p.node p.minute ≡ Some p.cost }
{}

/// The law that what is offered, less what is dominated, is an offer. The call does nothing.
pub fn wide_offers_narrow()
    ensures { (k : Task) (now : Progress) (v h : ℕ) (part wide narrow : ℕ → Option ℕ)
        → IsSimulation k → IsSearching k now v part → IsWide k now h wide
        → IsNarrowed k now h wide narrow → IsOffer k now h narrow }
{}

/// The law that the facts are kept where a node takes an offer, and begin with the first. The call does nothing.
pub fn offers_are_kept()
    ensures takes { (k : Task) (old new : Progress) (v h : ℕ) (part offer : ℕ → Option ℕ)
        → IsSimulation k → AreBoundsAlong k → IsSearching k old v part → IsOffer k old h offer
        → TakesOffer k h offer old new → IsSearching k new v part }
    ensures first { (k : Task) (old new : Progress) (h : ℕ) (offer : ℕ → Option ℕ)
        → IsSimulation k → AreBoundsAlong k → IsFirstOffer k old h offer → IsOffer k old h offer
        → TakesOffer k h offer old new → IsResting k new }
{}

/// The law that the facts are kept where a part is taken, loses what is dominated or surpassed, and is done. The call does nothing.
pub fn parts_are_kept()
    ensures takes { (k : Task) (old new : Progress) (v : ℕ) (part : ℕ → Option ℕ)
        → IsResting k old → TakesPart k v part old new → IsSearching k new v part }
    ensures narrows { (k : Task) (now : Progress) (v : ℕ) (wide narrow : ℕ → Option ℕ)
        → IsSearching k now v wide
        → ((t x : ℕ) → wide t ≡ Some x → (narrow t ≡ Some x) ⊎ IsDominated k now (point v t x))
        → IsSearching k now v narrow }
    ensures surpasses { (k : Task) (now : Progress) (v : ℕ) (wide narrow : ℕ → Option ℕ)
        → IsSearching k now v wide
        → ((t x : ℕ) → wide t ≡ Some x → (narrow t ≡ Some x) ⊎ IsSurpassed k now (point v t x))
        → IsSearching k now v narrow }
    ensures done { (k : Task) (now : Progress) (v : ℕ) (part : ℕ → Option ℕ)
        → IsSearching k now v part
        → ((t x : ℕ) → part t ≡ Some x → DrivesRelaxed k now (point v t x))
        → IsResting k now }
{}

/// The law that a ruler's search over states is one with dominance, and that its bounds and latest minutes hold along each road. The call
/// does nothing.
pub fn rulers_simulate()
    ensures simulate { (s : Setting) (r : Ruler) (base origin goal depart until : ℕ)
        (bound : ℕ → ℕ → Option Bound) (latest : ℕ → ℕ) → IsSimulating r → IsBase s r base
        → AreRuledBounds s r goal bound → AreLatest r until bound latest
        → IsSimulation (task_by_latest s r base origin goal depart until bound latest) }
    ensures bounds { (s : Setting) (r : Ruler) (base origin goal depart until : ℕ)
        (bound : ℕ → ℕ → Option Bound) (latest : ℕ → ℕ) → IsSimulating r → IsBase s r base
        → AreRuledBounds s r goal bound → AreLatest r until bound latest
        → AreBoundsAlong (task_by_latest s r base origin goal depart until bound latest) }
{}

/// The law that the ruler of one break rule simulates and fits, has one stage, and a best state. The call does nothing.
pub fn one_rule_simulates()
    ensures simulates { (drive rest : ℕ) → IsSimulating (one_rule drive rest) }
    ensures fits { (drive rest : ℕ) → IsFitting (one_rule drive rest) }
    ensures staged { (drive rest : ℕ) → IsStaged (one_rule drive rest) }
    ensures best { (drive rest : ℕ) → HasBest (one_rule drive rest) }
{}

/// The law that the ruler without a rule simulates and fits, has one stage, and a best state. The call does nothing.
pub fn no_rule_simulates()
    ensures simulates { IsSimulating no_rule }
    ensures fits { IsFitting no_rule }
    ensures staged { IsStaged no_rule }
    ensures best { HasBest no_rule }
{}

/// The law that the ruler of a trip that serves stops, of which there are fewer than 2^32, simulates and fits if that of its rules does, and
/// that its stage is the number of served stops, after each of which the first state is the best if it is so for the rules. The call does
/// nothing.
pub fn servings_simulate()
    ensures simulates { (services : List Service) (r : Ruler)
        → length services < served_limit → IsSimulating r
        → IsSimulating (serving services r) }
    ensures fits { (services : List Service) (r : Ruler)
        → length services < served_limit → IsFitting r
        → IsFitting (serving services r) }
    ensures staged { (services : List Service) (r : Ruler)
        → length services < served_limit → IsStaged (serving services r) }
    ensures best { (services : List Service) (r : Ruler) → IsFirstBest r
        → HasBest (serving services r) }
{}

/// The law that what drives of a known part over a road end with, pruned and waited on, is wide. The call does nothing.
pub fn drives_are_wide()
    ensures { (k : Task) (now : Progress) (a v h : ℕ) (part ends clear wide : ℕ → Option ℕ)
        → IsSimulation k → AreBoundsAlong k → IsKnownPart k now v part → IsDriven k a v part h ends
        → IsCleared k now.pairs h ends clear → IsClosed k now.pairs h clear wide
        → IsWide k now h wide }
{}

/// The law that the cost of the start, pruned and waited on, is an offer, and where nothing is known the first. The call does nothing.
pub fn starts_are_first()
    ensures offer { (k : Task) (now : Progress) (costs clear wide : ℕ → Option ℕ)
        → IsSimulation k → AreBoundsAlong k → IsStartAlone k costs
        → IsCleared k now.pairs k.start.node costs clear
        → IsClosed k now.pairs k.start.node clear wide → IsOffer k now k.start.node wide }
    ensures first { (k : Task) (now : Progress) (costs clear wide : ℕ → Option ℕ)
        → IsSimulation k → AreBoundsAlong k → IsStartAlone k costs
        → IsCleared k now.pairs k.start.node costs clear
        → IsClosed k now.pairs k.start.node clear wide → IsBlank now
        → IsFirstOffer k now k.start.node wide }
{}

/// The law that where such an offer is taken, without what is dominated, each drive of the part over the road is relaxed. The call does
/// nothing.
pub fn drives_are_relaxed()
    ensures { (k : Task) (old new : Progress) (a v h : ℕ) (part ends clear wide narrow : ℕ → Option ℕ)
        → IsSimulation k → AreBoundsAlong k → IsDriven k a v part h ends
        → IsCleared k old.pairs h ends clear → IsClosed k old.pairs h clear wide
        → IsNarrowed k old h wide narrow → IsOffer k old h narrow → TakesOffer k h narrow old new
        → (t x : ℕ) (q : Position) → part t ≡ Some x
        → Drives k.setting k.until a (point v t x) q → IsRelaxedIn k new q }
{}

/// The law that a cost of a state is surpassed if behind the next stop, at each minute at which one may come there, the best state is known
/// for less. The call does nothing.
pub fn next_stops_surpass()
    ensures { (s : Setting) (r : Ruler) (base origin goal depart until : ℕ)
        (bound : ℕ → ℕ → Option Bound) (latest : ℕ → ℕ) (now : Progress)
        (price : ℕ) (sum : ℕ → ℕ → ℕ)
        → IsSimulating r → HasBest r → IsStaged r → IsBase s r base
        → AreRuledBounds s r goal bound → AreLatest r until bound latest
        → AreReducedSums s r price sum
        → (c : Service) (v k t x : ℕ) → slice_get r.services (r.stage k) ≡ Some c
        → v < base → t ≤ until → IsOutdone r base until bound latest now price sum c v k t x
        → IsSurpassed (task_by_latest s r base origin goal depart until bound latest) now
        (point (code base v k) t x) }
{}
