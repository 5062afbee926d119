// Writes latest departures as plain lines.
ghost use Rattle.std.specs.Prelude.{◌≡◌, IfOk};
ghost use Rattle.latest_departure.specs.Words.{late_text_of};

use crate::routes::{LateRoute, LateRoutes};
use route_base::OutOfMemory;
use route_lines::{PlainLines, plain_routes, push_each, push_route_line};
use std::alloc::Global;

impl PlainLines for LateRoute {
    ghost use Rattle.latest_departure.specs.Words.{late_route_text};

    ghost lines = { late_route_text };

    fn push_lines(&self, out: &mut Vec<u8>) -> Result<(), OutOfMemory> {
        push_route_line(out, "leave ", self.departure, self.cost)?;
        push_each(out, self.legs.as_slice())
    }
}

/// The report in plain lines: the number of pairs, then each departure and cost with its legs, departures in Unix minutes and costs
/// with three decimals. Linear in the number of legs.
pub fn late_text(alloc: Global, routes: &LateRoutes) -> Result<Vec<u8>, OutOfMemory>
    ensures { IfOk result (λ text. text.items ≡ late_text_of routes.now) }
{
    plain_routes(alloc, routes.as_slice())
}
