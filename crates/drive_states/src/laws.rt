// Settings that agree within a window have the same states.
ghost use Rattle.std.specs.Prelude.{◌↔◌, ℕ};
ghost use Rattle.drive_states.specs.Words.{HasTooManyStates};
ghost use Rattle.drive_states.specs.declared.rule.BreakRule.{BreakRule};
ghost use Rattle.route_base.specs.Matching.{StandsFor};
ghost use Rattle.route_base.specs.Setting.{Setting};
ghost use Rattle.route_base.specs.declared.types.Run.{Run};

/// The law of two settings of which one stands for the other within a window: for each rule there are too many states in both or in
/// neither. The call does nothing.
pub fn states_agree()
    ensures { (s z : Setting) (window : Run) (origin : ℕ) (rule : BreakRule)
        → StandsFor s z window
        → HasTooManyStates s origin rule ↔ HasTooManyStates z origin rule }
{}
