// The command that judges a certificate.
ghost use Rattle.std.specs.Prelude.{◌≡◌, true, false, None, IfOk, OnOk, IfErr};
ghost use Rattle.front_desk.specs.Words.{IfTold, network_held, check_fault, certificate_held, StopsReading};
ghost use Rattle.front_desk.specs.Words.{KeepsFiles, check_meaning, IsTimed};
ghost use Rattle.front_desk.specs.Words.{request_of, Ends, Tells, IsJudged};
ghost use Rattle.route_base.specs.Net.{IsGoodRequest, setting_of};

use crate::laws;
use crate::networks::net_for;
use crate::outcome::{Halt, Report};
use crate::requests::{request_of, trip_of};
use certificate::{Certificate, CertificateFault, read};
use certificate_check::{Verdict, check};
use front_words::Check;
use network_folder::{FileToRead, LoadFault, load_with};
use network_tables::Network;
use plan_report::{Verdict3, check_text};
use route_base::{FileBytes, Folder, Gate, OutOfMemory, Request, TimedNet};
use std::alloc::Global;
use std::thread::Threads;

// The report on a certificate with this verdict.
fn verdict_report(
    alloc: Global,
    certificate: &Certificate,
    verdict: Verdict,
) -> Result<Report, OutOfMemory>
    ensures { IfOk result (Tells certificate.now verdict) }
{
    match verdict {
        Verdict::Accepted => Ok(Report {
            text: check_text(alloc, Verdict3::Accepted, certificate.routes.len())?,
            rejects: false,
        }),
        Verdict::Rejected(number) => Ok(Report {
            text: check_text(alloc, Verdict3::Rejected(number), 0)?,
            rejects: true,
        }),
    }
}

// The report on the bytes of a certificate's file, over the net of a trip. The bytes are given back once they are read.
fn judged(
    alloc: Global,
    net: &TimedNet,
    request: Request,
    bytes: FileBytes,
) -> Result<Report, OutOfMemory>
    requires { IsGoodRequest net.now request }
    ensures { IfOk result (IsJudged (setting_of net.now) request bytes) }
{
    let certificate = match read(alloc, bytes.as_slice()) {
        Ok(certificate) => certificate,
        Err(CertificateFault::NotACertificate) => {
            return Ok(Report {
                text: check_text(alloc, Verdict3::Rejected(0), 0)?,
                rejects: true,
            });
        }
        Err(CertificateFault::OutOfMemory) => return Err(OutOfMemory),
    };
    drop(bytes);
    let verdict = check(alloc, net, request, &certificate)?;
    let report = verdict_report(alloc, &certificate, verdict)?;
    Ok(report)
}

// The network of the check's folder, and the bytes of the certificate.
fn load_to_check<F: Folder>(
    alloc: Global,
    folder: &mut F,
    check: &Check,
) -> Result<(Network, FileBytes), LoadFault>
    ensures faultless { OnOk result (IfTold (F.state folder.old)
        (λ held. check_fault check.now held ≡ None)) }
    ensures found { IfOk result (λ loaded. IfTold (F.state folder.old)
        (λ held. loaded.0 ≡ network_held held check.now.dir)) }
    ensures certificate { IfOk result (λ loaded. IfTold (F.state folder.old)
        (λ held. loaded.1 ≡ certificate_held check.now held)) }
    ensures refused { IfErr result (StopsReading (check_fault check.now)
        (F.state folder.old) (F.state folder.new)) }
    ensures kept { KeepsFiles (F.state folder.old) (F.state folder.new) }
{
    let file = FileToRead::certificate(&check.name);
    load_with(alloc, folder, &check.dir, file)
}

/// The judgement of the certificate in the check's folder for its trip over the files of that folder. Several workers make the net at
/// once; the network is given back before the certificate is judged, which needs the net alone.
pub fn report_check<R: Threads + Sync, F: Folder, G: Gate>(
    rt: &R,
    alloc: Global,
    folder: &mut F,
    check: &Check,
    gate: &G,
) -> Result<Report, Halt>
    requires timed { IsTimed check.now.trip }
    ensures { Ends (check_meaning check.now)
        (F.state folder.old) (F.state folder.new) result }
{
    let (network, bytes) = load_to_check(alloc, folder, check)?;
    let trip = trip_of(&check.trip);
    let net = net_for(rt, alloc, network, trip, gate)?;
    laws::judgements_agree();
    let report = judged(alloc, &net, request_of(trip), bytes)?;
    Ok(report)
}
