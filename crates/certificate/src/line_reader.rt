// Reads lines from the front.
ghost use Rattle.std.specs.Prelude.{◌≡◌, if◌then◌else◌, IfOk, IfSome, IfNone, MatchOption, Option};
ghost use Rattle.certificate.specs.Inside.LineForms.{pair_in, piece_in, count_in};
ghost use Rattle.certificate.specs.Inside.Reading.{token_lines, first_line, items_in, Takes};
ghost use Rattle.certificate.specs.Inside.Reading.{route_in, function_in, IsFirstNode};
ghost use Rattle.certificate.specs.Inside.Reading.{behind_title, is_end};

use crate::lines::{
    AllPieceLines, LegLines, LineKind, PieceLines, is_number, read_count, read_pair,
};
use crate::neighbours::are_in_order;
use cost_functions::CostFn;
use route_base::{Listing, NodeId, OutOfMemory, Pair, Route, cut};
use std::alloc::Global;
use std::marker::Model;

/// The bytes that are left, which contracts see as their lines, each a list of tokens. The last line has no line feed.
#[derive(Drop)]
pub struct LineReader<'a> {
    rest: &'a [u8],
}

impl<'a> Model for LineReader<'a> {
    ghost use Rattle.std.specs.Prelude.{List, ℕ};
    ghost use Rattle.certificate.specs.Inside.Reading.{token_lines};

    ghost Value = { List (List (List ℕ)) };

    ghost view = { λ s. token_lines s.rest.now };
}

impl<'a> LineReader<'a> {
    /// The reader of all bytes.
    pub fn new(bytes: &'a [u8]) -> LineReader<'a>
        ensures { result ≡ token_lines bytes.now }
    {
        LineReader { rest: bytes }
    }

    /// Reads the first line, where it is of this kind; else the line stays.
    pub fn take<T, K: LineKind<T>>(&mut self, kind: &K) -> Option<T>
        ensures some { IfSome result (λ x.
            first_line (K.reading kind.now) self.old ≡ Option.Some (x, self.new)) }
        ensures none { IfNone result (first_line (K.reading kind.now) self.old ≡ Option.None) }
        ensures kept { IfNone result (self.new ≡ self.old) }
    {
        let (line, rest) = cut(self.rest, b'\n')?;
        let item = kind.read(line)?;
        self.rest = rest;
        Some(item)
    }

    /// Reads lines of this kind as long as there are any.
    pub fn take_all<T: Drop, K: LineKind<T>>(
        &mut self,
        alloc: Global,
        kind: &K,
    ) -> Result<Vec<T>, OutOfMemory>
        ensures { IfOk result (λ items.
            (items.items, self.new) ≡ items_in (first_line (K.reading kind.now)) self.old) }
    {
        let mut items = Vec::new(alloc);
        'lines: while let Some(item) = self.take(kind) {
            items.push(item)?;
        }
        Ok(items)
    }

    /// Reads the line of a pair, with the token that announces the number of its legs; else the line stays.
    pub fn take_pair(&mut self) -> Option<(Pair, &'a [u8])>
        ensures some { IfSome result (λ r.
            first_line pair_in self.old ≡ Option.Some ((r.0, r.1.now), self.new)) }
        ensures none { IfNone result (first_line pair_in self.old ≡ Option.None) }
        ensures kept { IfNone result (self.new ≡ self.old) }
    {
        let (line, rest) = cut(self.rest, b'\n')?;
        let (pair, legs) = read_pair(line)?;
        self.rest = rest;
        Some((pair, legs))
    }

    /// Reads the line of this word, which gives the token behind the word; else the line stays.
    pub fn take_count(&mut self, word: &[u8]) -> Option<&'a [u8]>
        ensures some { IfSome result (λ count.
            first_line (count_in word.now) self.old ≡ Option.Some (count.now, self.new)) }
        ensures none { IfNone result (first_line (count_in word.now) self.old ≡ Option.None) }
    {
        let (line, rest) = cut(self.rest, b'\n')?;
        let count = read_count(line, word)?;
        self.rest = rest;
        Some(count)
    }

    /// Reads the name and the version of the format.
    pub fn take_title(&mut self) -> bool
        ensures { behind_title self.old ≡ (if result then Option.Some self.new else Option.None) }
    {
        match self.take_count(b"lorry-certificate") {
            Some(version) => version == b"1".as_slice(),
            None => false,
        }
    }

    /// Whether only the last line is left.
    pub fn is_at_end(&self) -> bool
        ensures { result ≡ is_end self.now }
    {
        self.rest == b"end\n".as_slice()
    }

    /// Reads a pair and its legs; else the lines stay.
    pub fn take_route(&mut self, alloc: Global) -> Result<Option<Route>, OutOfMemory>
        ensures route { IfOk result (λ o. Takes route_in self.old o self.new) }
        ensures kept { IfOk result (λ o. IfNone o (self.new ≡ self.old)) }
    {
        let before = self.rest;
        let Some((pair, count)) = self.take_pair() else {
            return Ok(None);
        };
        let legs = self.take_all(alloc, &LegLines)?;
        if is_number(count, legs.len() as u64) && are_in_order(&legs) {
            return Ok(Some(Route {
                pair,
                legs: Listing::from_vec(legs),
            }));
        }
        self.rest = before;
        Ok(None)
    }

    /// Reads pairs with their legs as long as there are any.
    pub fn take_routes(&mut self, alloc: Global) -> Result<Vec<Route>, OutOfMemory>
        ensures { IfOk result (λ routes. (routes.items, self.new) ≡ items_in route_in self.old) }
    {
        let mut routes = Vec::new(alloc);
        'routes: while let Some(route) = self.take_route(alloc)? {
            routes.push(route)?;
        }
        Ok(routes)
    }

    /// The node of the first line, where it is the line of a piece.
    pub fn piece_node(&self) -> Option<NodeId>
        ensures { MatchOption result (first_line piece_in self.now ≡ Option.None)
            (λ node. IsFirstNode node self.now) }
    {
        let (line, _) = cut(self.rest, b'\n')?;
        let (node, _) = AllPieceLines.read(line)?;
        Some(node)
    }

    /// Reads the pieces of one node's function; else the lines stay.
    pub fn take_function(&mut self, alloc: Global) -> Result<Option<(NodeId, CostFn)>, OutOfMemory>
        ensures function { IfOk result (λ o. Takes function_in self.old o self.new) }
        ensures kept { IfOk result (λ o. IfNone o (self.new ≡ self.old)) }
    {
        let before = self.rest;
        let Some(node) = self.piece_node() else {
            return Ok(None);
        };
        let pieces = self.take_all(alloc, &PieceLines { node })?;
        if are_in_order(&pieces) {
            return Ok(Some((node, CostFn::from_pieces(pieces))));
        }
        self.rest = before;
        Ok(None)
    }

    /// Reads functions as long as there are any.
    pub fn take_functions(&mut self, alloc: Global) -> Result<Vec<(NodeId, CostFn)>, OutOfMemory>
        ensures { IfOk result (λ functions.
            (functions.items, self.new) ≡ items_in function_in self.old) }
    {
        let mut functions = Vec::new(alloc);
        'functions: while let Some(function) = self.take_function(alloc)? {
            functions.push(function)?;
        }
        Ok(functions)
    }
}
