// Reads a whole graph file.
ghost use Rattle.std.specs.Prelude.{◌≡◌, IfOk, OnOk, IfErr, Option};
ghost use Rattle.dimacs_reader.specs.Faults.{fault_of, IsRefusal, HasCauseOfContents};
ghost use Rattle.dimacs_reader.specs.GraphModel.{graph_of};

use crate::builder::GraphBuilder;
use crate::plain_lines::read_first_line;
use crate::{Graph, GraphFault};
use std::alloc::Global;

/// Reads a graph file of DIMACS (9th Implementation Challenge, shortest paths): a problem line `p sp n m` and m arcs
/// `a u v w` of w minutes, with any blanks (spaces and tabs) round their tokens, and comments and empty lines between. A
/// line ends with a line feed, or a carriage return and a line feed; the last may have no end. Linear in the bytes, in
/// memory too: what a problem line announces reserves none.
///
/// A file is refused exactly where it has a fault, with the line and the cause of the first one. `OutOfMemory` comes
/// where the list of arcs can't grow.
pub fn read_graph(alloc: Global, bytes: &[u8]) -> Result<Graph, GraphFault>
    ensures faultless { OnOk result (fault_of bytes.now ≡ Option.None) }
    ensures found { IfOk result (λ g. g ≡ graph_of bytes.now) }
    ensures refused { IfErr result (IsRefusal (fault_of bytes.now)) }
    ensures cause { IfErr result HasCauseOfContents }
{
    let mut builder = GraphBuilder::new(alloc);
    let mut rest = bytes;
    let mut number: u64 = 1;
    'lines: while let Some((line, more)) = read_first_line(rest) {
        if let Some(cause) = builder.cause(line) {
            return Err(GraphFault::BadLine {
                line: number,
                cause,
            });
        }
        builder.add(line)?;
        number += 1;
        rest = more;
    }
    match builder.finish() {
        Ok(graph) => Ok(graph),
        Err(cause) => Err(GraphFault::BadLine {
            line: number,
            cause,
        }),
    }
}
