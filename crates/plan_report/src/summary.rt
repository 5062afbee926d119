// Writes the summary of a network that was made, and of the routes of a trip over it.
ghost use Rattle.std.specs.Prelude.{◌≡◌, ◌++◌, OnOk, IfOk, option_copied};
ghost use Rattle.plan_report.specs.Summary.{ends_text, named_route_text, summary_text_of};

use line_texts::{push_field, push_text, push_thousandths};
use route_base::{OutOfMemory, Route, Routes};
use std::alloc::Global;

// Appends the line of a route behind a word, if there is one.
fn push_named(out: &mut Vec<u8>, word: &str, route: Option<&Route>) -> Result<(), OutOfMemory>
    ensures { OnOk result (out.new.items
        ≡ out.old.items ++ named_route_text word.now (option_copied route.entry)) }
{
    let Some(route) = route else {
        return Ok(());
    };
    push_text(out, word)?;
    push_field(out, " ", route.pair.arrival)?;
    push_text(out, " ")?;
    push_thousandths(out, route.pair.cost)?;
    push_text(out, "\n")
}

// Appends the lines of the first route and of the last, if there is one.
fn push_ends(out: &mut Vec<u8>, routes: &[Route]) -> Result<(), OutOfMemory>
    ensures { OnOk result (out.new.items ≡ out.old.items ++ ends_text routes.now) }
{
    push_named(out, "first", routes.first())?;
    push_named(out, "last", routes.last())
}

/// The summary of a network of these numbers of nodes and arcs, and of the routes of a trip over it: their number, and where there
/// is one, the arrival in Unix minutes and the cost of the first and of the last. In constant time.
pub fn summary_text(
    alloc: Global,
    nodes: u32,
    arcs: u32,
    routes: &Routes,
) -> Result<Vec<u8>, OutOfMemory>
    ensures { IfOk result (λ v. v.items ≡ summary_text_of nodes arcs routes.now) }
{
    let mut out = Vec::new(alloc);
    push_field(&mut out, "generated ", nodes as u64)?;
    push_field(&mut out, " ", arcs as u64)?;
    push_field(&mut out, "\npairs ", routes.len() as u64)?;
    push_text(&mut out, "\n")?;
    push_ends(&mut out, routes.as_slice())?;
    Ok(out)
}
