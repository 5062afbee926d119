// The lines of the base's legs and routes.
ghost use Rattle.route_lines.specs.RouteLines.{plain_route_text};

use crate::lines::{PlainLines, push_each, push_route_line};
use line_texts::push_plain_leg;
use route_base::{Leg, OutOfMemory, Route};

impl PlainLines for Leg {
    ghost use Rattle.line_texts.specs.Words.{plain_leg_text};

    ghost lines = { plain_leg_text };

    fn push_lines(&self, out: &mut Vec<u8>) -> Result<(), OutOfMemory> {
        push_plain_leg(out, *self)
    }
}

impl PlainLines for Route {
    ghost lines = { plain_route_text };

    fn push_lines(&self, out: &mut Vec<u8>) -> Result<(), OutOfMemory> {
        push_route_line(out, "pair ", self.pair.arrival, self.pair.cost)?;
        push_each(out, self.legs.as_slice())
    }
}
