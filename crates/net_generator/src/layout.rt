// Draws the roads, the closures and the parking areas.
ghost use Rattle.std.specs.Prelude.{◌≡◌, ◌≤◌, ◌*◌, ◌+◌, OnOk, IfOk, []};
ghost use Rattle.net_generator.specs.Draws.{Continues, drawn_to};
ghost use Rattle.net_generator.specs.Layout.{both_ways, roads_at, closures_at};
ghost use Rattle.net_generator.specs.Layout.{parking_at};
ghost use Rattle.net_generator.specs.declared.limits.TheConstants.{MOST_GENERATED_NODES};

use crate::draws::Draws;
use route_base::{Minute, OutOfMemory};
use std::alloc::Global;

/// A road between two nodes, in one direction.
#[derive(Clone, Copy)]
pub struct Road {
    pub tail: u32,
    pub head: u32,
    pub minutes: u64,
}

/// The minutes from `from` up to, but not including, `to` at which an arc is closed.
#[derive(Clone, Copy)]
pub struct Closure {
    pub arc: u64,
    pub from: Minute,
    pub to: Minute,
}

/// A parking area with the letter of its rating: `a`, `b` or `c`.
#[derive(Clone, Copy)]
pub struct Parking {
    pub node: u32,
    pub rating: u8,
}

/// The rows and the columns of a grid of nodes.
#[derive(Clone, Copy)]
pub struct Grid {
    pub rows: u32,
    pub columns: u32,
}

impl Grid {
    /// The number of nodes.
    pub fn nodes(self) -> u32
        requires { self.rows * self.columns ≤ MOST_GENERATED_NODES }
        ensures { result ≡ self.rows * self.columns }
    {
        self.rows * self.columns
    }
}

// Draws a road there and back.
fn push_both_ways(
    out: &mut Vec<Road>,
    draws: &mut Draws,
    tail: u32,
    head: u32,
) -> Result<(), OutOfMemory>
    ensures { OnOk result (Continues (both_ways tail head) out.old.items draws.old out.new.items
        draws.new) }
{
    let minutes = 20 + draws.below(41);
    out.push(Road {
        tail,
        head,
        minutes,
    })?;
    out.push(Road {
        tail: head,
        head: tail,
        minutes,
    })?;
    Ok(())
}

// Draws the roads between a node and its neighbours to the right and below.
fn push_roads(
    out: &mut Vec<Road>,
    draws: &mut Draws,
    grid: Grid,
    node: u32,
) -> Result<(), OutOfMemory>
    requires columns { 1 ≤ grid.columns }
    requires nodes { grid.rows * grid.columns ≤ MOST_GENERATED_NODES }
    requires node { node ≤ grid.rows * grid.columns }
    ensures { OnOk result
        (Continues (roads_at grid.rows grid.columns node) out.old.items draws.old out.new.items draws.new) }
{
    if node % grid.columns != 0 {
        push_both_ways(out, draws, node, node + 1)?;
    }
    if node + grid.columns <= grid.nodes() {
        push_both_ways(out, draws, node, node + grid.columns)?;
    }
    Ok(())
}

/// Draws the roads of a grid, in the order of their arc numbers. Linear in the nodes.
pub fn draw_roads(alloc: Global, draws: &mut Draws, grid: Grid) -> Result<Vec<Road>, OutOfMemory>
    requires columns { 1 ≤ grid.columns }
    requires nodes { grid.rows * grid.columns ≤ MOST_GENERATED_NODES }
    ensures { IfOk result (λ roads.
        Continues (drawn_to (roads_at grid.rows grid.columns) (grid.rows * grid.columns)) [] draws.old roads.items draws.new) }
{
    let mut out = Vec::new(alloc);
    for done in 0..grid.nodes() {
        push_roads(&mut out, draws, grid, done + 1)?;
    }
    Ok(out)
}

// Draws whether an arc is closed, and when.
fn push_closure(out: &mut Vec<Closure>, draws: &mut Draws, arc: u64) -> Result<(), OutOfMemory>
    ensures { OnOk result (Continues (closures_at arc) out.old.items draws.old out.new.items
        draws.new) }
{
    if draws.below(10) == 0 {
        let from = 26_563_680 + draws.below(14_400);
        let to = from + (60 + draws.below(1_440));
        out.push(Closure { arc, from, to })?;
    }
    Ok(())
}

/// Draws the closures of the arcs from 1 to a number. Linear in it.
pub fn draw_closures(
    alloc: Global,
    draws: &mut Draws,
    arcs: usize,
) -> Result<Vec<Closure>, OutOfMemory>
    ensures { IfOk result (λ closures. Continues
        (drawn_to closures_at arcs) [] draws.old closures.items draws.new) }
{
    let mut out = Vec::new(alloc);
    for done in 0..arcs {
        push_closure(&mut out, draws, done as u64 + 1)?;
    }
    Ok(out)
}

// Draws whether a node has a parking area, and its rating.
fn push_parking(out: &mut Vec<Parking>, draws: &mut Draws, node: u32) -> Result<(), OutOfMemory>
    ensures { OnOk result (Continues (parking_at node) out.old.items draws.old out.new.items
        draws.new) }
{
    if draws.below(8) == 0 {
        let rating = b'a' + draws.below(3) as u8;
        out.push(Parking { node, rating })?;
    }
    Ok(())
}

/// Draws the parking areas of the nodes from 1 to a number. Linear in it.
pub fn draw_parking(
    alloc: Global,
    draws: &mut Draws,
    nodes: u32,
) -> Result<Vec<Parking>, OutOfMemory>
    requires { nodes ≤ MOST_GENERATED_NODES }
    ensures { IfOk result (λ parking. Continues
        (drawn_to parking_at nodes) [] draws.old parking.items draws.new) }
{
    let mut out = Vec::new(alloc);
    for done in 0..nodes {
        push_parking(&mut out, draws, done + 1)?;
    }
    Ok(out)
}
