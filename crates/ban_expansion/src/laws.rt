// A law of the definitions that needs no call.
ghost use Rattle.std.specs.Prelude.{◌≡◌, List, Option};
ghost use Rattle.conditional_rules.specs.Decisions.{last_given};
ghost use Rattle.ban_expansion.specs.Layers.{all_parts};

/// The law that the last part that gives a value, of the last place with such a part, is the last one in the list of the parts
/// of all places. The call does nothing.
pub fn last_of_all<P, Q, A>()
    ensures { (parts : P → List Q) (f : Q → Option A) (places : List P) →
        last_given (λ p. last_given f (parts p)) places ≡ last_given f (all_parts parts places) }
{}
