// The command that plans a trip.
ghost use Rattle.std.specs.Prelude.{IfOk, OnOk, IfErr};
ghost use Rattle.front_desk.specs.Words.{plan_meaning, IsTimed};
ghost use Rattle.front_desk.specs.Words.{request_of, IsPlannable, IsReady};
ghost use Rattle.front_desk.specs.Words.{Ends, HandsOver, IsWritten, IsUnwritten};
ghost use Rattle.route_base.specs.Net.{setting_of};

use crate::laws;
use crate::networks::net_for;
use crate::outcome::{Halt, Report};
use crate::requests::{request_of, trip_of};
use certificate::write;
use front_words::Plan;
use itinerary_unpack::FunctionEngine;
use network_folder::{FileToWrite, load_network, put_file};
use plan_certificate::certify;
use plan_report::plan_text;
use route_base::limits::LONGEST_CERTIFICATE;
use route_base::{Folder, FrontSearch, Gate, OutOfMemory, Text, TimedNet, WriteError};
use std::alloc::Global;
use std::thread::Threads;

/// The bytes of a certificate, and the name of the file that they are for.
#[derive(Drop)]
pub struct CertificateFile<'a> {
    pub name: &'a str,
    pub bytes: Vec<u8>,
}

/// The text of a plan, and its certificate if one is asked for.
#[derive(Drop)]
pub struct Planned<'a> {
    pub text: Vec<u8>,
    pub certificate: Option<CertificateFile<'a>>,
}

// The text of a plan, and its certificate if one is asked for, over the net of its trip. It searches once: a certificate has the
// routes that are printed. A certificate of more bytes than `check` reads would be no use: it counts as one for which there is no memory.
fn planned_over<'a>(
    alloc: Global,
    net: &TimedNet,
    plan: &'a Plan,
) -> Result<Planned<'a>, OutOfMemory>
    requires { IsPlannable net.now (request_of plan.now.trip) }
    ensures { IfOk result (IsReady (setting_of net.now) plan.now) }
{
    let request = request_of(trip_of(&plan.trip));
    match &plan.certificate {
        None => {
            let routes = FunctionEngine.front(alloc, net, request)?;
            let text = plan_text(alloc, plan.form, net, request, &routes)?;
            Ok(Planned {
                text,
                certificate: None,
            })
        }
        Some(name) => {
            let certificate = certify(alloc, net, request)?;
            let text = plan_text(alloc, plan.form, net, request, &certificate.routes)?;
            let bytes = write(alloc, &certificate)?;
            if bytes.len() as u64 > LONGEST_CERTIFICATE {
                return Err(OutOfMemory);
            }
            Ok(Planned {
                text,
                certificate: Some(CertificateFile {
                    name: name.as_str(),
                    bytes,
                }),
            })
        }
    }
}

// Writes the certificate's file below dir, if there is one.
fn put_certificate<F: Folder>(
    alloc: Global,
    folder: &mut F,
    dir: &Text,
    certificate: Option<CertificateFile<'_>>,
) -> Result<(), WriteError>
    ensures written { OnOk result
        (IsWritten (F.state folder.old) (F.state folder.new) dir.now certificate.entry) }
    ensures unwritten { IfErr result
        (IsUnwritten (F.state folder.old) (F.state folder.new) dir.now certificate.entry) }
{
    let Some(file) = certificate else {
        return Ok(());
    };
    let file = FileToWrite {
        name: file.name,
        bytes: file.bytes.as_slice(),
    };
    put_file(alloc, folder, dir, file)
}

// Writes the certificate of a plan, if there is one, and hands over the text.
fn hand_over<F: Folder>(
    alloc: Global,
    folder: &mut F,
    dir: &Text,
    planned: Planned<'_>,
) -> Result<Report, Halt>
    ensures { HandsOver (F.state folder.old) (F.state folder.new) dir.now planned.entry result }
{
    let Planned { text, certificate } = planned;
    put_certificate(alloc, folder, dir, certificate)?;
    Ok(Report {
        text,
        rejects: false,
    })
}

/// The report of the plan's trip over the files of its folder, into which its certificate is written if one is asked for. Several
/// workers make the net at once; the network is given back before the search, which needs the net alone.
pub fn report_plan<R: Threads + Sync, F: Folder, G: Gate>(
    rt: &R,
    alloc: Global,
    folder: &mut F,
    plan: &Plan,
    gate: &G,
) -> Result<Report, Halt>
    requires timed { IsTimed plan.now.trip }
    ensures { Ends (plan_meaning plan.now)
        (F.state folder.old) (F.state folder.new) result }
{
    let network = load_network(alloc, folder, &plan.dir)?;
    let net = net_for(rt, alloc, network, trip_of(&plan.trip), gate)?;
    laws::plans_agree();
    let planned = planned_over(alloc, &net, plan)?;
    hand_over(alloc, folder, &plan.dir, planned)
}
