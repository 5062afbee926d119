// Whether one may wait at a node at an instant.
ghost use Rattle.std.specs.Prelude.{◌≡◌, ◌<◌, length, option_map};
ghost use Rattle.route_base.specs.Time.{IsInstant};
ghost use Rattle.network_tables.specs.Access.{area_at, is_open_by, is_park_open};
ghost use Rattle.network_tables.specs.NetworkModel.{park_of};

use crate::Network;
use opening_hours::{Hours, covers};
use route_base::{Minute, NodeId};

// Whether the hours, if there are any, cover the instant by the clocks and the holidays of the area.
fn is_open_at(network: &Network, area: usize, hours: Option<&Hours>, t: Minute) -> bool
    requires area { area < length network.now.areas }
    requires instant { IsInstant t }
    ensures { result ≡ is_open_by (option_map (λ h. h.now) hours.entry)
        (area_at network.now area) t }
{
    match hours {
        None => true,
        Some(hours) => {
            let wall = network.zone_of(area).wall(t);
            covers(hours, wall.day, wall.minute, network.holidays_of(area))
        }
    }
}

/// Whether the node is rated and waiting there is open at the instant: it has no hours, or they cover what the clocks of its row's
/// area show. The clock is read in time logarithmic in the zone's rows, and `covers` is linear in the rules of the hours. It takes no
/// memory.
pub fn is_wait_open(network: &Network, v: NodeId, t: Minute) -> bool
    requires { IsInstant t }
    ensures { result ≡ is_park_open network.now (park_of network.now v.0) t }
{
    let parks = network.parks();
    match parks.rated(v) {
        None => false,
        Some(node) => {
            let hours = parks.hours(node.timetable);
            is_open_at(network, parks.area(node.timetable), hours, t)
        }
    }
}
