// Writes the text of a certificate.
ghost use Rattle.std.specs.Prelude.{◌≡◌, ◌∷◌, ◌++◌, ◌<◌, ◌^◌, IfOk, OnOk, decimal, flat_map, length, map};
ghost use Rattle.certificate.specs.CertificateText.{line_text, all_pieces, certificate_text_of};
ghost use Rattle.certificate.specs.Writable.{IsWritable};
ghost use Rattle.certificate.specs.Inside.Spelling.{spaced, leg_text, route_text};
ghost use Rattle.certificate.specs.Inside.Spelling.{bound_text, piece_text, function_text};

use crate::{Certificate, NodeBounds, NodeFunctions};
use cost_functions::{CostFn, Piece};
use line_texts::{push_field, push_text};
use route_base::{Bound, Leg, NodeId, OutOfMemory, Route};
use std::alloc::Global;

/// The one text of the certificate. Linear in its bytes.
pub fn write(alloc: Global, certificate: &Certificate) -> Result<Vec<u8>, OutOfMemory>
    requires { IsWritable certificate.now }
    ensures { IfOk result (λ text. text.items ≡ certificate_text_of certificate.now) }
{
    let mut out = Vec::from_slice(alloc, b"lorry-certificate 1\n")?;
    push_line(&mut out, "pairs", &[certificate.routes.len() as u64])?;
    push_routes(&mut out, certificate.routes.as_slice())?;
    let bounds = certificate.bounds.as_slice();
    push_line(&mut out, "bounds", &[bounds.len() as u64])?;
    push_bounds(&mut out, bounds)?;
    let functions = certificate.functions.as_slice();
    push_line(&mut out, "pieces", &[piece_count(functions)])?;
    push_functions(&mut out, functions)?;
    push_line(&mut out, "end", &[])?;
    Ok(out)
}

// Appends numbers, with a space before each.
fn push_numbers(out: &mut Vec<u8>, numbers: &[u64]) -> Result<(), OutOfMemory>
    ensures { OnOk result (out.new.items ≡ out.old.items ++ flat_map spaced numbers.now) }
{
    for number in numbers {
        push_field(out, " ", *number)?;
    }
    Ok(())
}

// Appends the line of a word and numbers.
fn push_line(out: &mut Vec<u8>, word: &str, numbers: &[u64]) -> Result<(), OutOfMemory>
    ensures { OnOk result
        (out.new.items ≡ out.old.items ++ line_text (word.now ∷ map decimal numbers.now)) }
{
    push_text(out, word)?;
    push_numbers(out, numbers)?;
    push_text(out, "\n")
}

// Appends the line of a leg.
fn push_leg(out: &mut Vec<u8>, leg: Leg) -> Result<(), OutOfMemory>
    ensures { OnOk result (out.new.items ≡ out.old.items ++ leg_text leg) }
{
    match leg {
        Leg::Drive(arc) => push_line(out, "drive", &[arc.0 as u64]),
        Leg::Wait(minutes) => push_line(out, "wait", &[minutes]),
    }
}

// Appends the lines of legs.
fn push_legs(out: &mut Vec<u8>, legs: &[Leg]) -> Result<(), OutOfMemory>
    ensures { OnOk result (out.new.items ≡ out.old.items ++ flat_map leg_text legs.now) }
{
    for leg in legs {
        push_leg(out, *leg)?;
    }
    Ok(())
}

// Appends the line of a pair, and then those of its legs.
fn push_route(out: &mut Vec<u8>, route: &Route) -> Result<(), OutOfMemory>
    ensures { OnOk result (out.new.items ≡ out.old.items ++ route_text route.now) }
{
    let legs = route.legs.as_slice();
    push_line(
        out,
        "pair",
        &[route.pair.arrival, route.pair.cost, legs.len() as u64],
    )?;
    push_legs(out, legs)?;
    Ok(())
}

// Appends the lines of routes.
fn push_routes(out: &mut Vec<u8>, routes: &[Route]) -> Result<(), OutOfMemory>
    ensures { OnOk result (out.new.items ≡ out.old.items ++ flat_map route_text routes.now) }
{
    for route in routes {
        push_route(out, route)?;
    }
    Ok(())
}

// Appends the lines of nodes' bounds.
fn push_bounds(out: &mut Vec<u8>, bounds: &[(NodeId, Bound)]) -> Result<(), OutOfMemory>
    ensures { OnOk result (out.new.items ≡ out.old.items ++ flat_map bound_text bounds.now) }
{
    for entry in bounds {
        push_line(
            out,
            "bound",
            &[entry.0.0 as u64, entry.1.minutes, entry.1.cost],
        )?;
    }
    Ok(())
}

// Appends the lines of the pieces of a node's function.
fn push_pieces(out: &mut Vec<u8>, node: NodeId, pieces: &[Piece]) -> Result<(), OutOfMemory>
    ensures { OnOk result (out.new.items ≡ out.old.items ++ flat_map (piece_text node) pieces.now) }
{
    for piece in pieces {
        let numbers = [node.0 as u64, piece.lo, piece.hi, piece.cost, piece.slope];
        push_line(out, "piece", &numbers)?;
    }
    Ok(())
}

// Appends the lines of nodes' functions.
fn push_functions(out: &mut Vec<u8>, functions: &[(NodeId, CostFn)]) -> Result<(), OutOfMemory>
    ensures { OnOk result (out.new.items ≡ out.old.items ++ flat_map function_text functions.now) }
{
    for entry in functions {
        push_pieces(out, entry.0, entry.1.pieces())?;
    }
    Ok(())
}

/// The number of pieces of all functions. Linear in the functions.
pub fn piece_count(functions: &[(NodeId, CostFn)]) -> u64
    requires { length (all_pieces functions.now) < 2 ^ 64 }
    ensures { result ≡ length (all_pieces functions.now) }
{
    let mut count = 0u64;
    for entry in functions {
        count += entry.1.pieces().len() as u64;
    }
    count
}
