// The refusal of a certificate's text.
ghost use Rattle.std.specs.Prelude.{◌≡◌};

use route_base::OutOfMemory;

/// The refusal of a certificate's text: the bytes are the text of no certificate, or out of memory.
#[derive(Clone, Copy, Debug, PartialEq, Eq)]
pub enum CertificateFault {
    NotACertificate,
    OutOfMemory,
}

impl From<OutOfMemory> for CertificateFault {
    ghost use Rattle.certificate.specs.declared.faults.CertificateFault.TheVariants.{OutOfMemory};

    ghost from_gives = { λ _ e. e ≡ OutOfMemory };

    fn from(_: OutOfMemory) -> Self {
        CertificateFault::OutOfMemory
    }
}
