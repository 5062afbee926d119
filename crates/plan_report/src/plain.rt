// Writes routes as plain lines.
ghost use Rattle.std.specs.Prelude.{◌≡◌, IfOk};
ghost use Rattle.plan_report.specs.Plain.{plain_text_of};

use route_base::{OutOfMemory, Routes};
use route_lines::plain_routes;
use std::alloc::Global;

/// The report in plain lines: the number of pairs, then each pair with its legs, arrivals in Unix minutes and costs with three
/// decimals. Linear in the number of legs.
pub fn plain_text(alloc: Global, routes: &Routes) -> Result<Vec<u8>, OutOfMemory>
    ensures { IfOk result (λ v. v.items ≡ plain_text_of routes.now) }
{
    plain_routes(alloc, routes.as_slice())
}
