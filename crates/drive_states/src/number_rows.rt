// Numbers by row and place.
ghost use Rattle.std.specs.Prelude.{◌≡◌, ◌<◌, ◌≤◌, ◌^◌, ℕ, [], length, set, OnOk, slice_index_or};
ghost use Rattle.drive_states.specs.Words.{number_at, HasPlace, IsNumberSet};

use route_base::OutOfMemory;
use std::alloc::Global;
use std::marker::Model;

/// A number for each row and place, in rows that grow as they are needed. It is 0 until it is set.
#[derive(Drop)]
pub struct NumberRows {
    alloc: Global,
    rows: Vec<Vec<u32>>,
}

impl Model for NumberRows {
    ghost use Rattle.std.specs.Prelude.{List, ℕ, map};

    ghost Value = { List (List ℕ) };

    ghost view = { λ a. map (λ v. v.items) a.rows.items };
}

impl NumberRows {
    /// No numbers.
    pub fn new(alloc: Global) -> NumberRows
        ensures { result ≡ [] }
    {
        NumberRows {
            alloc,
            rows: Vec::new(alloc),
        }
    }

    /// The number at a place. In constant time.
    pub fn number(&self, row: usize, place: usize) -> u32
        ensures { result ≡ number_at self.now row place }
    {
        if row < self.rows.len() {
            number_in(self.rows[row].as_slice(), place)
        } else {
            0
        }
    }

    /// Makes room for a number at a place. Linear in the rows that are added, and in constant time on average for a place.
    pub fn make_room(&mut self, row: usize, place: usize) -> Result<(), OutOfMemory>
        requires { place < 2 ^ 32 }
        ensures same { (v k : ℕ) → number_at self.new v k ≡ number_at self.old v k }
        ensures room { OnOk result (HasPlace self.new row place) }
    {
        self.add_rows(row)?;
        widen(&mut self.rows[row], place)
    }

    // Adds empty rows up to this one.
    fn add_rows(&mut self, row: usize) -> Result<(), OutOfMemory>
        ensures same { (v k : ℕ) → number_at self.new v k ≡ number_at self.old v k }
        ensures within { OnOk result (row < length self.new) }
    {
        'rows: while self.rows.len() <= row {
            self.rows.push(Vec::new(self.alloc))?;
        }
        Ok(())
    }

    /// Sets the number at a place for which there is room. In constant time.
    pub fn set(&mut self, row: usize, place: usize, number: u32)
        requires { HasPlace self.old row place }
        ensures { IsNumberSet self.old self.new row place number }
    {
        set_in(&mut self.rows[row], place, number);
    }
}

// The number at a place of a row, or 0 behind its end.
fn number_in(row: &[u32], place: usize) -> u32
    ensures { result ≡ slice_index_or row.now place 0 }
{
    if place < row.len() { row[place] } else { 0 }
}

// Lengthens a row to a place.
fn widen(row: &mut Vec<u32>, place: usize) -> Result<(), OutOfMemory>
    requires { place < 2 ^ 32 }
    ensures same { (k : ℕ) → slice_index_or row.new.items k 0 ≡ slice_index_or row.old.items k 0 }
    ensures within { OnOk result (place < length row.new.items) }
{
    if place < row.len() {
        return Ok(());
    }
    row.resize(place + 1, 0)?;
    Ok(())
}

// Sets the number at a place of a row.
fn set_in(row: &mut Vec<u32>, place: usize, number: u32)
    requires { place < length row.old.items }
    ensures { row.new.items ≡ set row.old.items place number }
{
    row[place] = number;
}
