// Tables: the codes of lockers, as a table of one's own.
ghost use Rattle.std.specs.Prelude.{◌≡◌, codes};
ghost use Rattle.route_base.specs.Forms.{is_name};
ghost use Rattle.table_reader.specs.NameIndex.{value_under};
ghost use Rattle.table_reader.specs.Words.{ReadsRows, first_table_fault, records_of};
ghost use Rattle.uses.specs.Lockers.{lockers_schema, codes_of};

use route_base::{TableFault, is_name_field};
use std::alloc::Global;
use table_reader::{FieldValues, NameIndex, NumberedTable, read_table};

/// The codes of colours, by name.
#[derive(Drop)]
pub struct Codes {
    pub by_name: NameIndex<u64>,
}

impl FieldValues<u64> for Codes {
    ghost numbers = { codes "locker" };

    ghost fields = { codes "colour" };

    ghost limit = { 100 };

    ghost form = { is_name };

    ghost value = { λ held. value_under held.by_name };

    fn headers(&self) -> &'static [&'static [&'static str]] {
        &[&["locker", "colour"]]
    }

    fn most_rows(&self) -> u32 {
        100
    }

    fn has_form(&self, field: &[u8]) -> bool {
        is_name_field(field)
    }

    fn find(&self, name: &[u8]) -> Option<u64> {
        self.by_name.value(name)
    }
}

/// The code of each of `count` lockers, by a table of lockers and colours. Linear in the bytes.
pub fn read_lockers(
    alloc: Global,
    bytes: &[u8],
    count: u32,
    colours: Codes,
) -> Result<Vec<Option<u64>>, TableFault>
    ensures { ReadsRows result
        (first_table_fault (lockers_schema count colours.by_name) (records_of bytes.now))
        (λ read. read.items ≡ codes_of count colours.by_name bytes.now) }
{
    let table = NumberedTable::new(alloc, count, colours)?;
    let (_, read) = read_table(alloc, bytes, table)?.into_parts();
    Ok(read)
}
