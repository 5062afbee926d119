// Writes tours as plain lines.
ghost use Rattle.std.specs.Prelude.{◌≡◌, IfOk};
ghost use Rattle.stop_tour.specs.Words.{tour_text_of};

use crate::{TourLeg, TourRoute, TourRoutes};
use line_texts::{push_field, push_text};
use route_base::{Leg, OutOfMemory};
use route_lines::{PlainLines, plain_routes, push_each, push_route_line};
use std::alloc::Global;

impl PlainLines for TourLeg {
    ghost use Rattle.stop_tour.specs.Words.{tour_leg_text};

    ghost lines = { tour_leg_text };

    fn push_lines(&self, out: &mut Vec<u8>) -> Result<(), OutOfMemory> {
        match *self {
            TourLeg::Drive(arc) => Leg::Drive(arc).push_lines(out),
            TourLeg::Wait(minutes) => Leg::Wait(minutes).push_lines(out),
            TourLeg::Serve(stop) => {
                push_field(out, "serve ", stop as u64)?;
                push_text(out, "\n")
            }
        }
    }
}

impl PlainLines for TourRoute {
    ghost use Rattle.stop_tour.specs.Words.{tour_route_text};

    ghost lines = { tour_route_text };

    fn push_lines(&self, out: &mut Vec<u8>) -> Result<(), OutOfMemory> {
        push_route_line(out, "pair ", self.pair.arrival, self.pair.cost)?;
        push_each(out, self.legs.as_slice())
    }
}

/// The report in plain lines: the number of pairs, then each pair with its legs, arrivals in Unix minutes and costs with three
/// decimals. Linear in the number of legs.
pub fn tour_text(alloc: Global, routes: &TourRoutes) -> Result<Vec<u8>, OutOfMemory>
    ensures { IfOk result (λ text. text.items ≡ tour_text_of routes.now) }
{
    plain_routes(alloc, routes.as_slice())
}
