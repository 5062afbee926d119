// Writes the roads, the closures and the parking areas.
ghost use Rattle.std.specs.Prelude.{◌≡◌, ◌≤◌, ◌*◌, ◌++◌, OnOk, IfOk, flat_map};
ghost use Rattle.net_generator.specs.Generated.{size_text, comment_text, graph_text, road_text, closure_text, closures_text, parking_text, parkings_text};
ghost use Rattle.net_generator.specs.declared.limits.TheConstants.{MOST_GENERATED_NODES};

use crate::layout::{Closure, Grid, Parking, Road};
use line_texts::{push_field, push_number, push_text};
use route_base::OutOfMemory;
use std::alloc::Global;

// Appends the rows and columns of a grid, and ends the line.
fn push_size(out: &mut Vec<u8>, grid: Grid) -> Result<(), OutOfMemory>
    ensures { OnOk result (out.new.items ≡ out.old.items ++ size_text grid.rows grid.columns) }
{
    push_field(out, " ", grid.rows as u64)?;
    push_field(out, " ", grid.columns as u64)?;
    push_text(out, "\n")
}

// Appends the comment of a graph.
fn push_comment(out: &mut Vec<u8>, number: u64, grid: Grid) -> Result<(), OutOfMemory>
    ensures { OnOk result
        (out.new.items ≡ out.old.items ++ comment_text number grid.rows grid.columns) }
{
    push_field(out, "c lorry_plan ", number)?;
    push_size(out, grid)
}

// Appends the line of a road.
fn push_road(out: &mut Vec<u8>, road: Road) -> Result<(), OutOfMemory>
    ensures { OnOk result (out.new.items ≡ out.old.items ++ road_text road) }
{
    push_field(out, "a ", road.tail as u64)?;
    push_field(out, " ", road.head as u64)?;
    push_field(out, " ", road.minutes)?;
    push_text(out, "\n")
}

// Appends the lines of roads.
fn push_roads(out: &mut Vec<u8>, roads: &[Road]) -> Result<(), OutOfMemory>
    ensures { OnOk result (out.new.items ≡ out.old.items ++ flat_map road_text roads.now) }
{
    for road in roads {
        push_road(out, *road)?;
    }
    Ok(())
}

/// The text of a graph. Linear in the roads.
pub fn graph(alloc: Global, number: u64, grid: Grid, roads: &[Road]) -> Result<Vec<u8>, OutOfMemory>
    requires { grid.rows * grid.columns ≤ MOST_GENERATED_NODES }
    ensures { IfOk result (λ v. v.items ≡ graph_text number grid.rows grid.columns roads.now) }
{
    let mut out = Vec::new(alloc);
    push_comment(&mut out, number, grid)?;
    push_field(&mut out, "p sp ", grid.nodes() as u64)?;
    push_field(&mut out, " ", roads.len() as u64)?;
    push_text(&mut out, "\n")?;
    push_roads(&mut out, roads)?;
    Ok(out)
}

// Appends the row of a closure.
fn push_closure(out: &mut Vec<u8>, closure: Closure) -> Result<(), OutOfMemory>
    ensures { OnOk result (out.new.items ≡ out.old.items ++ closure_text closure) }
{
    push_number(out, closure.arc)?;
    push_field(out, ",", closure.from)?;
    push_field(out, ",", closure.to)?;
    push_text(out, "\n")
}

/// The table of closures. Linear in their number.
pub fn closures(alloc: Global, closures: &[Closure]) -> Result<Vec<u8>, OutOfMemory>
    ensures { IfOk result (λ v. v.items ≡ closures_text closures.now) }
{
    let mut out = Vec::new(alloc);
    push_text(&mut out, "arc,from,to\n")?;
    for closure in closures {
        push_closure(&mut out, *closure)?;
    }
    Ok(out)
}

// Appends the row of a parking area.
fn push_parking(out: &mut Vec<u8>, parking: Parking) -> Result<(), OutOfMemory>
    ensures { OnOk result (out.new.items ≡ out.old.items ++ parking_text parking) }
{
    push_number(out, parking.node as u64)?;
    push_text(out, ",")?;
    out.push(parking.rating)?;
    push_text(out, "\n")
}

/// The table of parking areas. Linear in their number.
pub fn parking(alloc: Global, parking: &[Parking]) -> Result<Vec<u8>, OutOfMemory>
    ensures { IfOk result (λ v. v.items ≡ parkings_text parking.now) }
{
    let mut out = Vec::new(alloc);
    push_text(&mut out, "node,rating\n")?;
    for place in parking {
        push_parking(&mut out, *place)?;
    }
    Ok(out)
}
