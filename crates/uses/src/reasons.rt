// Explanations: why a way is unlawful.
ghost use Rattle.std.specs.Prelude.{◌≡◌, None, IfOk, IfErr, OnOk};
ghost use Rattle.trip_explain.specs.Explanations.{IsExplained, IsRoadRequest};
ghost use Rattle.trip_explain.specs.ItineraryFile.{IsItineraryRefusal, bad_line_of, legs_of};

use network_tables::Network;
use route_base::Request;
use std::alloc::Global;
use trip_explain::{Explanation, ItineraryFault, explain, read_itinerary};
use vehicle_classes::Vehicle;

/// What is wrong with the itinerary in a file's bytes: the first leg that is unlawful for the vehicle over the network, with its minute
/// and the reason; or its pair if it is lawful. Linear in the bytes, and it takes the time of `explain`.
pub fn explanation_of(
    alloc: Global,
    network: &Network,
    vehicle: &Vehicle,
    request: Request,
    bytes: &[u8],
) -> Result<Explanation, ItineraryFault>
    requires { IsRoadRequest network.now request }
    ensures explained { IfOk result
        (IsExplained network.now vehicle.now request (legs_of bytes.now)) }
    ensures faultless { OnOk result (bad_line_of bytes.now ≡ None) }
    ensures refused { IfErr result (IsItineraryRefusal (bad_line_of bytes.now)) }
{
    let legs = read_itinerary(alloc, bytes)?;
    Ok(explain(network, vehicle, request, legs.as_slice()))
}
