// A row of bits for each node.
ghost use Rattle.std.specs.Prelude.{◌≡◌, ◌≢◌, ◌<◌, ◌≤◌, ℕ, [], length, IfOk, OnOk};
ghost use Rattle.drive_states.specs.Words.{TakesFresh, TakesLater, row_of};
ghost use Rattle.route_base.specs.declared.limits.TheConstants.{DAY_MINUTES};

use crate::bits::{add_later, take_fresh};
use route_base::{NodeId, OutOfMemory};
use std::alloc::Global;
use std::marker::Model;

/// A set of minutes for each node, in rows of bits that grow as they are needed.
#[derive(Drop)]
pub struct BitRows {
    alloc: Global,
    rows: Vec<Vec<u64>>,
}

impl Model for BitRows {
    ghost use Rattle.std.specs.Prelude.{List, ℕ, map};

    ghost Value = { List (List ℕ) };

    ghost view = { λ a. map (λ v. v.items) a.rows.items };
}

impl BitRows {
    /// Empty sets.
    pub fn new(alloc: Global) -> BitRows
        ensures { result ≡ [] }
    {
        BitRows {
            alloc,
            rows: Vec::new(alloc),
        }
    }

    /// The row of a node. In constant time.
    pub fn row(&self, v: NodeId) -> &[u64]
        ensures { result.now ≡ row_of self.now v.0 }
    {
        match self.rows.get(v.0 as usize) {
            Some(row) => row.as_slice(),
            None => &[],
        }
    }

    /// Adds to a node's minutes those of a row, all later by some minutes, up to the most, and counts the new ones. Linear in the minutes
    /// over the bits of a word, and in the rows that are added.
    pub fn add(&mut self, v: NodeId, from: &[u64], by: u64, most: u64) -> Result<u32, OutOfMemory>
        requires { most ≤ DAY_MINUTES }
        ensures took { IfOk result (λ fresh.
            TakesLater (row_of self.old v.0) (row_of self.new v.0) from.now by most fresh) }
        ensures others { OnOk result ((u : ℕ) → u ≢ v.0 → row_of self.new u ≡ row_of self.old u) }
    {
        let place = v.0 as usize;
        self.add_rows(place)?;
        add_later(&mut self.rows[place], from, by as usize, most as usize)
    }

    /// Takes all minutes of a row at a node, and writes the new ones. Linear in the minutes over the bits of a word.
    pub fn take(&mut self, v: NodeId, row: &[u64], fresh: &mut Vec<u64>) -> Result<(), OutOfMemory>
        ensures took { OnOk result (TakesFresh (row_of self.old v.0) (row_of self.new v.0)
            row.now fresh.new.items) }
        ensures others { OnOk result ((u : ℕ) → u ≢ v.0 → row_of self.new u ≡ row_of self.old u) }
    {
        let place = v.0 as usize;
        self.add_rows(place)?;
        take_fresh(&mut self.rows[place], row, fresh)
    }

    // Adds empty rows up to this one.
    fn add_rows(&mut self, place: usize) -> Result<(), OutOfMemory>
        ensures same { (u : ℕ) → row_of self.new u ≡ row_of self.old u }
        ensures within { OnOk result (place < length self.new) }
    {
        'rows: while self.rows.len() <= place {
            self.rows.push(Vec::new(self.alloc))?;
        }
        Ok(())
    }
}
