// Settings that agree within a window have the same tight certificates.
ghost use Rattle.std.specs.Prelude.{◌↔◌};
ghost use Rattle.route_base.specs.Matching.{IsInWindow, StandsFor};
ghost use Rattle.route_base.specs.Setting.{Setting};
ghost use Rattle.route_base.specs.declared.types.Request.{Request};
ghost use Rattle.route_base.specs.declared.types.Run.{Run};
ghost use Rattle.certificate.specs.declared.Certificate.{Certificate};
ghost use Rattle.plan_certificate.specs.CheapRoads.{HasCheapRoads};
ghost use Rattle.plan_certificate.specs.Tight.{IsTight};

/// The law of two settings of which one stands for the other within a window: a certificate of a request in it is tight for both or for
/// neither, and both have cheap roads or neither has. The call does nothing.
pub fn certificates_agree()
    ensures tight { (s z : Setting) (window : Run) (r : Request) → StandsFor s z window
        → IsInWindow r window → (c : Certificate) → IsTight s r c ↔ IsTight z r c }
    ensures cheap { (s z : Setting) (window : Run) → StandsFor s z window
        → HasCheapRoads s ↔ HasCheapRoads z }
{}
