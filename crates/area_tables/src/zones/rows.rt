// The rows of one zone while the table is being read.
ghost use Rattle.std.specs.Prelude.{◌≡◌, ◌∷◌, ◌++◌, [], None, false, true, IfOk, OnOk, IfErr, IsTrue};
ghost use Rattle.std.specs.List.{last_or};
ghost use Rattle.table_reader.specs.Refusals.{IfBadCause};
ghost use Rattle.zone_rules.specs.Zones.{is_offset, is_later};

use route_base::{Cause, OutOfMemory};
use std::alloc::{AllocError, Global};
use std::marker::Model;
use table_reader::RowFault;
use zone_rules::{Zone, ZoneFault, ZoneRow};

/// Rows that are a zone, which contracts see as their list.
#[derive(Drop)]
pub struct ZoneRows {
    rows: Vec<ZoneRow>,
}

impl Model for ZoneRows {
    ghost use Rattle.std.specs.Prelude.{◌≡◌, None, List};
    ghost use Rattle.zone_rules.specs.Zones.{zone_fault_of};
    ghost use Rattle.zone_rules.specs.declared.rows.ZoneRow.{ZoneRow};

    ghost Value = { List ZoneRow };

    ghost view = { λ z. z.rows.items };

    ghost invariant = { λ z. zone_fault_of z.rows.items ≡ None };
}

impl ZoneRows {
    /// One row.
    pub fn new(alloc: Global, row: ZoneRow) -> Result<Self, AllocError>
        requires { IsTrue (is_offset row.offset) }
        ensures { IfOk result (λ rows. rows ≡ row ∷ []) }
    {
        Ok(ZoneRows {
            rows: vec![in alloc; row]?,
        })
    }

    /// Adds a row; `NotRising` where it starts no later than the last one.
    pub fn push(&mut self, row: ZoneRow) -> Result<(), RowFault>
        requires { IsTrue (is_offset row.offset) }
        ensures later { OnOk result (is_later (last_or None self.old) row ≡ true) }
        ensures added { OnOk result (self.new ≡ self.old ++ row ∷ []) }
        ensures refused { IfErr result (λ e. IfBadCause e (λ cause.
            (cause ≡ Cause.NotRising) × (is_later (last_or None self.old) row ≡ false))) }
    {
        if !self.ends_before(row) {
            return Err(RowFault::Bad(Cause::NotRising));
        }
        self.rows.push(row)?;
        Ok(())
    }

    // Whether the last row starts before this one.
    fn ends_before(&self, row: ZoneRow) -> bool
        ensures { result ≡ is_later (last_or None self.now) row }
    {
        match self.rows.last() {
            Some(last) => last.start < row.start,
            None => true,
        }
    }

    /// The zone of the rows. Linear in them, in time and memory.
    pub fn into_zone(self, alloc: Global) -> Result<Zone, OutOfMemory>
        ensures { IfOk result (λ zone. zone ≡ self) }
    {
        match Zone::from_rows(alloc, &self.rows) {
            Ok(zone) => Ok(zone),
            Err(ZoneFault::OutOfMemory) => Err(OutOfMemory),
            Err(_) => unreachable!(),
        }
    }
}
