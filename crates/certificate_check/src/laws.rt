// Settings that agree within a window judge certificates alike.
ghost use Rattle.std.specs.Prelude.{◌↔◌};
ghost use Rattle.route_base.specs.Matching.{StandsFor, IsInWindow};
ghost use Rattle.route_base.specs.Setting.{Setting};
ghost use Rattle.route_base.specs.declared.types.Request.{Request};
ghost use Rattle.route_base.specs.declared.types.Run.{Run};
ghost use Rattle.certificate.specs.declared.Certificate.{Certificate};
ghost use Rattle.certificate_check.specs.Verdicts.{IsVerdict};
ghost use Rattle.certificate_check.specs.declared.checker.Verdict.{Verdict};

/// The law of two settings of which one stands for the other within a window: for each request of the window both judge each
/// certificate alike. The call does nothing.
pub fn verdicts_agree()
    ensures { (s z : Setting) (window : Run) (r : Request) → StandsFor s z window
        → IsInWindow r window
        → (c : Certificate) (v : Verdict) → IsVerdict s r c v ↔ IsVerdict z r c v }
{}
