// Builds the graph line by line.
ghost use Rattle.std.specs.Prelude.{◌≡◌, [], IfOk, IfErr, OnOk, OnErr, Option};
ghost use Rattle.dimacs_reader.specs.Faults.{cause_in, cause_of_problem, cause_of_arc, end_cause_in};
ghost use Rattle.dimacs_reader.specs.GraphModel.{graph_in};
ghost use Rattle.dimacs_reader.specs.Inside.Builder.{stated_after};

use crate::lines::Line;
use crate::{Graph, GraphArc, GraphFault};
use route_base::limits::{LONGEST_DRIVE, MOST_ARCS, MOST_NODES};
use route_base::{Cause, NodeId};
use std::alloc::Global;
use std::marker::Model;

/// The numbers of nodes and of arcs of a problem line.
#[derive(Clone, Copy)]
pub struct Sizes {
    pub nodes: u64,
    pub arcs: u64,
}

/// The lines so far, none of which has a fault.
#[derive(Drop)]
pub struct GraphBuilder {
    sizes: Option<Sizes>,
    arcs: Vec<GraphArc>,
}

impl Model for GraphBuilder {
    ghost use Rattle.dimacs_reader.specs.Stated.{Stated};
    ghost use Rattle.dimacs_reader.specs.Inside.Builder.{IsConsistentFrom};

    ghost Value = { Stated };

    ghost view = { λ b. record { sizes = b.sizes; arcs = b.arcs.items } };

    ghost invariant = { λ b. IsConsistentFrom b.sizes b.arcs.items };
}

impl GraphBuilder {
    /// The builder before any line.
    pub fn new(alloc: Global) -> GraphBuilder
        ensures { result ≡ record { sizes = Option.None; arcs = [] } }
    {
        GraphBuilder {
            sizes: None,
            arcs: Vec::new(alloc),
        }
    }

    /// The cause for which the line can't come next, if there is one.
    pub fn cause(&self, line: Line) -> Option<Cause>
        ensures { result ≡ cause_in self.now line }
    {
        match line {
            Line::Ignored => None,
            Line::Problem(nodes, arcs) => problem_cause(self.sizes, nodes, arcs),
            Line::Arc(tail, head, minutes) => {
                arc_cause(self.sizes, self.arcs.len() as u64, tail, head, minutes)
            }
            Line::Bad => Some(Cause::BadForm),
        }
    }

    /// Adds the next line. In constant time on average.
    pub fn add(&mut self, line: Line) -> Result<(), GraphFault>
        requires faultless { cause_in self.old line ≡ Option.None }
        ensures added { OnOk result (self.new ≡ stated_after self.old line) }
        ensures kept { OnErr result (self.new ≡ self.old) }
        ensures only { IfErr result (λ e. e ≡ GraphFault.OutOfMemory) }
    {
        match line {
            Line::Problem(nodes, arcs) => self.sizes = Some(Sizes { nodes, arcs }),
            Line::Arc(tail, head, minutes) => self.arcs.push(GraphArc {
                tail: NodeId(tail as u32),
                head: NodeId(head as u32),
                minutes,
            })?,
            _ => {}
        }
        Ok(())
    }

    /// The graph, once all lines were added; or the cause for which the file can't end here.
    pub fn finish(self) -> Result<Graph, Cause>
        ensures faultless { OnOk result (end_cause_in self ≡ Option.None) }
        ensures graph { IfOk result (λ g. g ≡ graph_in self) }
        ensures cause { IfErr result (λ why. end_cause_in self ≡ Option.Some why) }
    {
        let Some(sizes) = self.sizes else {
            return Err(Cause::NoProblemLine);
        };
        if (self.arcs.len() as u64) < sizes.arcs {
            return Err(Cause::ArcCount);
        }
        Ok(Graph::new(sizes.nodes as u32, self.arcs))
    }
}

// The cause for which a problem line can't come next.
fn problem_cause(before: Option<Sizes>, nodes: u64, arcs: u64) -> Option<Cause>
    ensures { result ≡ cause_of_problem before nodes arcs }
{
    if before.is_some() {
        Some(Cause::SecondProblemLine)
    } else if nodes < 1 || nodes > MOST_NODES as u64 || arcs > MOST_ARCS as u64 {
        Some(Cause::SizeLimit)
    } else {
        None
    }
}

// The cause for which an arc line can't come next.
fn arc_cause(before: Option<Sizes>, arcs: u64, tail: u64, head: u64, minutes: u64) -> Option<Cause>
    ensures { result ≡ cause_of_arc before arcs tail head minutes }
{
    let Some(sizes) = before else {
        return Some(Cause::NoProblemLine);
    };
    if tail < 1 || tail > sizes.nodes || head < 1 || head > sizes.nodes {
        Some(Cause::NodeRange)
    } else if minutes < 1 || minutes > LONGEST_DRIVE {
        Some(Cause::WeightRange)
    } else if arcs >= sizes.arcs {
        Some(Cause::ArcCount)
    } else {
        None
    }
}
