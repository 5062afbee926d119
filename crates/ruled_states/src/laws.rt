// What no better state of a node cuts is what isn't dominated.
ghost use Rattle.std.specs.Prelude.{◌≡◌, ◌<◌, ℕ, List, Option, Some};
ghost use Rattle.route_base.specs.Setting.{Setting};
ghost use Rattle.route_base.specs.declared.types.Bound.{Bound};
ghost use Rattle.route_base.specs.declared.types.Pair.{Pair};
ghost use Rattle.route_base.specs.declared.types.Run.{Run};
ghost use Rattle.cost_functions.specs.declared.pieces.Piece.{Piece};
ghost use Rattle.state_dominance.specs.Inside.Product.{Ruler, IsSimulating, code, task_by_latest};
ghost use Rattle.state_dominance.specs.Inside.Taking.{IsNarrowed};
ghost use Rattle.ruled_states.specs.Inside.Codes.{base, found_by, HaveSmallNodes};
ghost use Rattle.ruled_states.specs.Inside.Cuts.{AreCut};
ghost use Rattle.propagation.specs.Inside.Invariants.{IsMerged};
ghost use Rattle.route_base.specs.Net.{at_number};
ghost use Rattle.ruled_states.specs.Inside.Tables.{IsStateOf, ArePlacesOf, code_of, number_in};
ghost use Rattle.ruled_states.specs.declared.table.Info.{Info};
ghost use Rattle.ruled_states.specs.declared.table.Place.{Place};

/// The law that what is left of costs, less what better states of the node cut, is what no known cost of the search over states
/// dominates. The call does nothing.
pub fn cuts_are_narrow()
    ensures { (s : Setting) (r : Ruler) (origin goal depart until : ℕ) (bound : ℕ → ℕ → Option Bound)
        (latest : ℕ → ℕ) (infos : List Info) (functions : List (List Piece)) (pending : List (List Run)) (pairs : List Pair)
        (v k : ℕ) (row : List Place) (wide narrow : ℕ → Option ℕ)
        → IsSimulating r → HaveSmallNodes infos
        → ((w j n m : ℕ) → IsStateOf infos w j n → IsStateOf infos w j m → n ≡ m)
        → v < base → ArePlacesOf infos v row → AreCut r functions k row wide narrow
        → IsNarrowed (task_by_latest s r base origin goal depart until bound latest)
        (found_by infos functions pending pairs) (code base v k) wide narrow }
{}

/// The law that where a state's number takes the lesser of its costs and the offered ones, so does its code. The call does nothing.
pub fn merges_by_code()
    ensures { (infos : List Info) (n : ℕ) (i : Info) (offer : ℕ → Option ℕ) (old new : ℕ → ℕ → Option ℕ)
        → at_number infos n ≡ Some i → number_in infos (code_of i) ≡ n → IsMerged n offer old new
        → IsMerged (code_of i) offer (λ c t. old (number_in infos c) t)
        (λ c t. new (number_in infos c) t) }
{}
