// States that have been reached, by number, with the places of each node.
ghost use Rattle.std.specs.Prelude.{◌≡◌, ◌≤◌, ◌<◌, ◌∷◌, ◌++◌, ◌+◌, ◌^◌, [], ℕ, Some, Contains, length, IfOk, IfSome, IsNone, OnOk, OnErr};
ghost use Rattle.route_base.specs.Net.{at_number};
ghost use Rattle.ruled_states.specs.Inside.Tables.{IsStateOf, ArePlacesOf, IsTable, row_at, rows_of};

use route_base::{Bound, NodeId, OutOfMemory};
use std::alloc::Global;
use std::marker::Model;

/// A node, a state of the ruler there, and the bound from it to the goal.
#[derive(Clone, Copy)]
pub struct Info {
    pub node: NodeId,
    pub state: u64,
    pub bound: Bound,
}

/// A state of some node, and its number.
#[derive(Clone, Copy)]
pub struct Place {
    pub state: u64,
    pub number: u32,
}

// The row of a node.
fn row_of(rows: &[Vec<Place>], node: NodeId) -> &[Place]
    ensures { result.now ≡ row_at (rows_of rows.now) node.0 }
{
    match rows.get(node.0 as usize) {
        Some(row) => row.as_slice(),
        None => &[],
    }
}

/// The states by number, from 1 on, and for each node, from 0 on, the places of its states.
#[derive(Drop)]
pub struct Table {
    infos: Vec<Info>,
    rows: Vec<Vec<Place>>,
}

impl Model for Table {
    ghost use Rattle.std.specs.Prelude.{length};
    ghost use Rattle.ruled_states.specs.Inside.Tables.{TableView, IsTable, rows_of};

    ghost Value = { TableView };

    ghost view = { λ a. record { infos = a.infos.items; rows = length a.rows.items } };

    ghost invariant = { λ a. IsTable a.infos.items (rows_of a.rows.items) };
}

// So many rows without places.
fn no_rows(alloc: Global, count: u32) -> Result<Vec<Vec<Place>>, OutOfMemory>
    ensures count { IfOk result (λ rows. length rows.items ≡ count) }
    ensures empty { IfOk result (λ rows. (v : ℕ) → row_at (rows_of rows.items) v ≡ []) }
{
    let mut rows = Vec::with_capacity(alloc, count as usize)?;
    for _row in 0..count {
        rows.push(Vec::new(alloc))?;
    }
    Ok(rows)
}

// Adds a place to the row of a node.
fn push_place(rows: &mut Vec<Vec<Place>>, node: NodeId, place: Place) -> Result<(), OutOfMemory>
    requires { node.0 < length rows.old.items }
    ensures here { OnOk result (row_at (rows_of rows.new.items) node.0
        ≡ row_at (rows_of rows.old.items) node.0 ++ place ∷ []) }
    ensures others { OnOk result ((v : ℕ) → (v ≡ node.0 → ⊥)
        → row_at (rows_of rows.new.items) v ≡ row_at (rows_of rows.old.items) v) }
    ensures kept { OnErr result ((v : ℕ) → row_at (rows_of rows.new.items) v
        ≡ row_at (rows_of rows.old.items) v) }
    ensures count { length rows.new.items ≡ length rows.old.items }
{
    rows[node.0 as usize].push(place)?;
    Ok(())
}

impl Table {
    /// A table without states, for nodes below a count.
    pub fn new(alloc: Global, count: u32) -> Result<Table, OutOfMemory>
        ensures { IfOk result (λ table. table ≡ record { infos = []; rows = count }) }
    {
        let rows = no_rows(alloc, count)?;
        Ok(Table {
            infos: Vec::new(alloc),
            rows,
        })
    }

    /// Adds a state that wasn't reached, and answers its number.
    pub fn add(&mut self, info: Info) -> Result<u32, OutOfMemory>
        requires new { (n : ℕ) → IsStateOf self.old.infos info.node.0 info.state n → ⊥ }
        requires node { info.node.0 < self.old.rows }
        requires room { length self.old.infos + 1 < 2 ^ 32 }
        ensures infos { OnOk result (self.new.infos ≡ self.old.infos ++ info ∷ []) }
        ensures number { IfOk result (λ n. n ≡ length self.old.infos + 1) }
        ensures rows { self.new.rows ≡ self.old.rows }
    {
        let number = self.infos.len() as u32 + 1;
        self.infos.reserve(1)?;
        let place = Place {
            state: info.state,
            number,
        };
        push_place(&mut self.rows, info.node, place)?;
        self.infos.push_reserved(info);
        Ok(number)
    }

    /// The number of states.
    pub fn count(&self) -> usize
        ensures { result ≡ length self.now.infos }
    {
        self.infos.len()
    }

    /// The law that no two numbers are of one state of a node. The call does nothing.
    pub fn are_distinct(&self)
        ensures { (v k n m : ℕ) → IsStateOf self.now.infos v k n → IsStateOf self.now.infos v k m
            → n ≡ m }
    {
        let _infos = &self.infos;
    }

    /// The state of a number; `None` exactly where there is none.
    pub fn info(&self, number: u32) -> Option<Info>
        ensures { result ≡ at_number self.now.infos number }
    {
        if number == 0 {
            return None;
        }
        self.infos.get(number as usize - 1).copied()
    }

    /// The places of the states of a node.
    pub fn places(&self, node: NodeId) -> &[Place]
        ensures { ArePlacesOf self.now.infos node.0 result.now }
    {
        row_of(&self.rows, node)
    }

    /// The number of a state of a node; `None` exactly where it wasn't reached.
    pub fn number_of(&self, node: NodeId, state: u64) -> Option<u32>
        ensures found { IfSome result (λ n. IsStateOf self.now.infos node.0 state n) }
        ensures none { IsNone result → (n : ℕ) → IsStateOf self.now.infos node.0 state n → ⊥ }
    {
        for place in self.places(node) {
            if place.state == state {
                return Some(place.number);
            }
        }
        None
    }
}
