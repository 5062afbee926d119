// Certificates: the Pareto front of a file that a stranger wrote.
ghost use Rattle.std.specs.Prelude.{◌≡◌, IfOk, IfSome, IfNone};
ghost use Rattle.route_base.specs.Front.{IsFront, pairs_of};
ghost use Rattle.route_base.specs.Net.{IsGoodRequest, setting_of};
ghost use Rattle.certificate.specs.Writable.{IsCertificateText};
ghost use Rattle.certificate.specs.declared.Certificate.{Certificate};
ghost use Rattle.certificate_check.specs.Conditions.{AreAchieved};
ghost use Rattle.certificate_check.specs.Verdicts.{IsGood};

use certificate::{CertificateFault, read};
use certificate_check::{Verdict, check};
use route_base::{OutOfMemory, Request, Routes, TimedNet};
use std::alloc::Global;

/// The routes of a certificate, whoever wrote its bytes, if the checker accepts it: their pairs are then the Pareto front of the
/// request, and their legs are lawful. `None` exactly if the bytes aren't a certificate, or not a good one. Linear in the bytes, and it
/// takes the time and memory of `check`.
pub fn certified_routes(
    alloc: Global,
    net: &TimedNet,
    request: Request,
    bytes: &[u8],
) -> Result<Option<Routes>, OutOfMemory>
    requires { IsGoodRequest net.now request }
    ensures front { IfOk result (λ found. IfSome found (λ routes.
        IsFront (setting_of net.now) request (pairs_of routes))) }
    ensures legs { IfOk result (λ found. IfSome found (λ routes.
        AreAchieved (setting_of net.now) request routes)) }
    ensures read { IfOk result (λ found. IfSome found (λ routes. (c : Certificate)
        × IsCertificateText bytes.now c × IsGood (setting_of net.now) request c
        × (routes ≡ c.routes))) }
    ensures none { IfOk result (λ found. IfNone found ((c : Certificate)
        → IsCertificateText bytes.now c → IsGood (setting_of net.now) request c → ⊥)) }
{
    let certificate = match read(alloc, bytes) {
        Ok(certificate) => certificate,
        Err(CertificateFault::NotACertificate) => return Ok(None),
        Err(CertificateFault::OutOfMemory) => return Err(OutOfMemory),
    };
    match check(alloc, net, request, &certificate)? {
        Verdict::Accepted => Ok(Some(certificate.routes)),
        Verdict::Rejected(_) => Ok(None),
    }
}
