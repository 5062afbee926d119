// Writes routes as a table.
ghost use Rattle.std.specs.Prelude.{◌≡◌, ◌++◌, OnOk};
ghost use Rattle.plan_report.specs.Inside.{position_at, IsKnown, LeadsOn};
ghost use Rattle.plan_report.specs.Table.{table_move_text, table_texts};
ghost use Rattle.route_base.specs.Net.{setting_of};

use crate::instants::push_instant;
use crate::places::Stage;
use crate::routes::RouteForm;
use line_texts::{push_field, push_text, push_thousandths};
use route_base::{Leg, OutOfMemory, Route, TimedNet};

// Appends the word of a leg, with the arc and its ends, or with the node of a wait.
fn push_move(out: &mut Vec<u8>, net: &TimedNet, stage: Stage) -> Result<(), OutOfMemory>
    requires known { IsKnown (setting_of net.now) (position_at stage.from) stage.leg }
    requires to { LeadsOn (setting_of net.now) stage }
    ensures { OnOk result (out.new.items ≡ out.old.items
        ++ table_move_text (setting_of net.now) (position_at stage.from) stage.leg) }
{
    match stage.leg {
        Leg::Drive(a) => {
            push_field(out, " drive ", a.0 as u64)?;
            push_field(out, " ", stage.from.node.0 as u64)?;
            push_field(out, " ", stage.to.node.0 as u64)
        }
        Leg::Wait(_) => push_field(out, " wait ", stage.from.node.0 as u64),
    }
}

/// The lines of routes: their number, and for each route its arrival and cost, and its legs with their starts as instants.
#[derive(Clone, Copy)]
pub struct TableLines;

impl RouteForm for TableLines {
    ghost texts = { λ _. table_texts };

    fn push_start(&self, out: &mut Vec<u8>, count: u64) -> Result<(), OutOfMemory> {
        push_field(out, "routes ", count)?;
        push_text(out, "\n")
    }

    fn push_head(&self, out: &mut Vec<u8>, number: u64, route: &Route) -> Result<(), OutOfMemory> {
        push_field(out, "route ", number)?;
        push_text(out, " arrive ")?;
        push_instant(out, route.pair.arrival)?;
        push_text(out, " cost ")?;
        push_thousandths(out, route.pair.cost)?;
        push_text(out, "\n")
    }

    fn push_leg(&self, out: &mut Vec<u8>, net: &TimedNet, stage: Stage) -> Result<(), OutOfMemory> {
        push_instant(out, stage.from.minute)?;
        push_move(out, net, stage)?;
        push_field(out, " ", stage.to.minute - stage.from.minute)?;
        push_text(out, "\n")
    }

    fn push_end(&self, _: &mut Vec<u8>, _: u64, _: &Route) -> Result<(), OutOfMemory> {
        Ok(())
    }
}
