// Reads the text of a certificate.
ghost use Rattle.std.specs.Prelude.{◌≡◌, IfOk, IfErr};
ghost use Rattle.certificate.specs.Writable.{IsCertificateText, IsNoCertificateText};
ghost use Rattle.certificate.specs.Inside.Reading.{token_lines, routes_in, bounds_in, functions_in};
ghost use Rattle.certificate.specs.Inside.Reading.{certificate_in, Takes};
ghost use Rattle.certificate.specs.declared.faults.CertificateFault.TheVariants.{NotACertificate};

use crate::line_reader::LineReader;
use crate::lines::{BoundLines, is_number};
use crate::neighbours::are_in_order;
use crate::writer::piece_count;
use crate::{Certificate, CertificateFault, NodeBounds, NodeFunctions, NodeMap};
use route_base::{Listing, OutOfMemory, Routes};
use std::alloc::Global;

/// The certificate whose text the bytes are; `NotACertificate` exactly where there is none. Linear in the bytes, in memory too:
/// the numbers that the text announces reserve none.
pub fn read(alloc: Global, bytes: &[u8]) -> Result<Certificate, CertificateFault>
    ensures found { IfOk result (IsCertificateText bytes.now) }
    ensures none { IfErr result (λ e. e ≡ NotACertificate → IsNoCertificateText bytes.now) }
{
    match certificate(alloc, bytes)? {
        Some(certificate) => Ok(certificate),
        None => Err(CertificateFault::NotACertificate),
    }
}

// The certificate of all lines.
fn certificate(alloc: Global, bytes: &[u8]) -> Result<Option<Certificate>, OutOfMemory>
    ensures { IfOk result (λ certificate. certificate ≡ certificate_in (token_lines bytes.now)) }
{
    let mut lines = LineReader::new(bytes);
    if !lines.take_title() {
        return Ok(None);
    }
    let Some(routes) = take_routes(alloc, &mut lines)? else {
        return Ok(None);
    };
    let Some(bounds) = take_bounds(alloc, &mut lines)? else {
        return Ok(None);
    };
    let Some(functions) = take_functions(alloc, &mut lines)? else {
        return Ok(None);
    };
    if !lines.is_at_end() {
        return Ok(None);
    }
    Ok(Some(Certificate {
        routes,
        bounds,
        functions,
    }))
}

// Reads the block of pairs and their legs.
fn take_routes(alloc: Global, lines: &mut LineReader<'_>) -> Result<Option<Routes>, OutOfMemory>
    ensures { IfOk result (λ routes. Takes routes_in lines.old routes lines.new) }
{
    let Some(count) = lines.take_count(b"pairs") else {
        return Ok(None);
    };
    let routes = lines.take_routes(alloc)?;
    if is_number(count, routes.len() as u64) {
        Ok(Some(Listing::from_vec(routes)))
    } else {
        Ok(None)
    }
}

// Reads the block of nodes' bounds.
fn take_bounds(alloc: Global, lines: &mut LineReader<'_>) -> Result<Option<NodeBounds>, OutOfMemory>
    ensures { IfOk result (λ bounds. Takes bounds_in lines.old bounds lines.new) }
{
    let Some(count) = lines.take_count(b"bounds") else {
        return Ok(None);
    };
    let bounds = lines.take_all(alloc, &BoundLines)?;
    if are_in_order(&bounds) && is_number(count, bounds.len() as u64) {
        Ok(Some(NodeMap::from_vec(bounds)))
    } else {
        Ok(None)
    }
}

// Reads the block of the pieces of nodes' functions.
fn take_functions(
    alloc: Global,
    lines: &mut LineReader<'_>,
) -> Result<Option<NodeFunctions>, OutOfMemory>
    ensures { IfOk result (λ functions. Takes functions_in lines.old functions lines.new) }
{
    let Some(count) = lines.take_count(b"pieces") else {
        return Ok(None);
    };
    let functions = lines.take_functions(alloc)?;
    if !are_in_order(&functions) {
        return Ok(None);
    }
    if is_number(count, piece_count(&functions)) {
        Ok(Some(NodeMap::from_vec(functions)))
    } else {
        Ok(None)
    }
}
