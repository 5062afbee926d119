// Writes routes as CSV.
ghost use Rattle.std.specs.Prelude.{◌≡◌, ◌++◌, OnOk};
ghost use Rattle.plan_report.specs.Csv.{csv_place_text, csv_kind, csv_texts};
ghost use Rattle.plan_report.specs.Inside.{position_at};
ghost use Rattle.route_base.specs.Time.{IsInstant};

use crate::instants::push_instant;
use crate::places::{Place, Stage};
use crate::routes::RouteForm;
use line_texts::{push_field, push_number, push_text, push_thousandths};
use route_base::{Leg, OutOfMemory, Request, Route, TimedNet};

// Appends the columns of a row behind its kind and arc.
fn push_place(out: &mut Vec<u8>, at: Place, minutes: u64) -> Result<(), OutOfMemory>
    requires { IsInstant at.minute }
    ensures { OnOk result
        (out.new.items ≡ out.old.items ++ csv_place_text (position_at at) minutes) }
{
    push_number(out, at.node.0 as u64)?;
    push_text(out, ",")?;
    push_instant(out, at.minute)?;
    push_field(out, ",", minutes)?;
    push_text(out, ",")?;
    push_thousandths(out, at.cost)?;
    push_text(out, "\n")
}

// Appends the kind of a leg and its arc.
fn push_kind(out: &mut Vec<u8>, leg: Leg) -> Result<(), OutOfMemory>
    ensures { OnOk result (out.new.items ≡ out.old.items ++ csv_kind leg) }
{
    match leg {
        Leg::Drive(a) => {
            push_field(out, ",drive,", a.0 as u64)?;
            push_text(out, ",")
        }
        Leg::Wait(_) => push_text(out, ",wait,,"),
    }
}

/// The rows of a request's routes: a header, and for each route a row for each leg and one for the arrival.
#[derive(Clone, Copy)]
pub struct CsvRows {
    pub request: Request,
}

impl RouteForm for CsvRows {
    ghost texts = { λ rows. csv_texts rows.request };

    fn push_start(&self, out: &mut Vec<u8>, _count: u64) -> Result<(), OutOfMemory> {
        push_text(out, "pair,leg,kind,arc,node,start,minutes,cost\n")
    }

    fn push_head(&self, _: &mut Vec<u8>, _: u64, _: &Route) -> Result<(), OutOfMemory> {
        Ok(())
    }

    fn push_leg(&self, out: &mut Vec<u8>, _: &TimedNet, stage: Stage) -> Result<(), OutOfMemory> {
        push_number(out, stage.route)?;
        push_field(out, ",", stage.number)?;
        push_kind(out, stage.leg)?;
        push_place(out, stage.from, stage.to.minute - stage.from.minute)
    }

    fn push_end(&self, out: &mut Vec<u8>, number: u64, route: &Route) -> Result<(), OutOfMemory> {
        let goal = Place {
            node: self.request.goal,
            minute: route.pair.arrival,
            cost: route.pair.cost,
        };
        push_number(out, number)?;
        push_field(out, ",", route.legs.len() as u64 + 1)?;
        push_text(out, ",arrive,,")?;
        push_place(out, goal, 0)
    }
}
