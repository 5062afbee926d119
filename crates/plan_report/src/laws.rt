// Settings of which one stands for the other have the same texts.
ghost use Rattle.std.specs.Prelude.{◌≡◌, List};
ghost use Rattle.plan_report.specs.Words.{Form, Request, Route, Run, Setting, StandsFor, report_text};

/// The law of two settings of which one stands for the other within a window: the text of routes is the same over both, in each
/// form. The call does nothing.
pub fn reports_agree()
    ensures { (s z : Setting) (window : Run) (form : Form) (r : Request) (routes : List Route)
        → StandsFor s z window
        → report_text form s r routes ≡ report_text form z r routes }
{}
