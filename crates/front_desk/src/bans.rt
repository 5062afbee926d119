// The command that prints the closed minutes of an arc.
ghost use Rattle.std.specs.Prelude.{◌≡◌, ◌≤◌, length, IfOk};
ghost use Rattle.front_desk.specs.Words.{IsInstant, Ends};
ghost use Rattle.front_desk.specs.Words.{bans_meaning, vehicle_named, IsBansText};

use crate::outcome::{Halt, Report};
use crate::requests::vehicle_of_bans;
use ban_expansion::closed_set;
use front_words::Bans;
use network_folder::load_network;
use network_tables::Network;
use plan_report::{Refusal, bans_text};
use route_base::{ArcId, Folder, OutOfMemory, Run};
use std::alloc::Global;
use vehicle_classes::Vehicle;

// The report of an arc that is there, for the vehicle of the command.
fn closed_report(
    alloc: Global,
    network: &Network,
    vehicle: &Vehicle,
    bans: &Bans,
) -> Result<Vec<u8>, OutOfMemory>
    requires low { 1 ≤ bans.now.arc }
    requires high { bans.now.arc ≤ length network.now.graph.arcs }
    requires depart { IsInstant bans.now.depart }
    requires until { IsInstant bans.now.until }
    requires vehicle { vehicle.now ≡ vehicle_named network.now bans.now.vehicle }
    ensures { IfOk result (λ text. IsBansText network.now bans.now text.items) }
{
    let window = Run {
        lo: bans.depart,
        hi: bans.until,
    };
    let set = closed_set(alloc, network, vehicle, ArcId(bans.arc), window)?;
    bans_text(alloc, set.runs(), network.passed_over())
}

/// The minutes of the command's window at which its arc is closed to its vehicle, over the files of its folder, as a text. It takes
/// the time and memory of `closed_set` beside reading.
pub fn report_bans<F: Folder>(alloc: Global, folder: &mut F, bans: &Bans) -> Result<Report, Halt>
    requires depart { IsInstant bans.now.depart }
    requires until { IsInstant bans.now.until }
    ensures { Ends (bans_meaning bans.now)
        (F.state folder.old) (F.state folder.new) result }
{
    let network = load_network(alloc, folder, &bans.dir)?;
    match vehicle_of_bans(&network, bans) {
        Err(fault) => Err(Halt::Refused(Refusal::Request(fault))),
        Ok(vehicle) => Ok(Report {
            text: closed_report(alloc, &network, vehicle, bans)?,
            rejects: false,
        }),
    }
}
