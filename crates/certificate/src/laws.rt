// The laws of the format that need no call.
ghost use Rattle.std.specs.Prelude.{◌≡◌, ℕ, List};
ghost use Rattle.certificate.specs.Writable.{IsCertificateText};
ghost use Rattle.certificate.specs.declared.Certificate.{Certificate};
ghost use Rattle.cost_functions.specs.declared.TheConstants.{HIGHEST_PIECE_COST};

/// The law that bytes are the text of at most one certificate. The call does nothing.
pub fn one_certificate()
    ensures { (bytes : List ℕ) (c d : Certificate) →
        IsCertificateText bytes c → IsCertificateText bytes d → c ≡ d }
{}

/// The law of the highest cost in a certificate, in thousandths: the definitions take it from a constant of the code, and the constant
/// has this number, which is that of `docs/LIMITS.md`. The call does nothing.
pub fn highest_piece_cost_is_this()
    ensures { HIGHEST_PIECE_COST ≡ 10000000000000 }
{}
