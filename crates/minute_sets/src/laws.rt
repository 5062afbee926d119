// Laws of the definitions that need no call.
ghost use Rattle.std.specs.Prelude.{◌≡◌, ℕ, List};
ghost use Rattle.route_base.specs.Runs.{any_has, AreRuns};
ghost use Rattle.route_base.specs.declared.types.Run.{Run};

/// The law that at most one list of runs that rise, do not touch and are not empty has given minutes. The call does nothing.
pub fn maximal_runs()
    ensures { (xs ys : List Run) → AreRuns xs → AreRuns ys
        → ((t : ℕ) → any_has xs t ≡ any_has ys t) → xs ≡ ys }
{}
