// A table of values by number, read from its text.
ghost use Rattle.std.specs.Prelude.{codes};

use super::bad_row;
use route_base::{Cause, TableFault, is_name_field};
use std::alloc::Global;
use table_reader::{FieldValues, NameIndex, NumberedTable, read_table};

// Sizes by name.
#[derive(Drop)]
struct Sizes {
    held: NameIndex<u64>,
}

impl FieldValues<u64> for Sizes {
    ghost use Rattle.route_base.specs.Forms.{is_name};
    ghost use Rattle.table_reader.specs.NameIndex.{value_under};

    ghost numbers = { codes "box" };

    ghost fields = { codes "size" };

    ghost limit = { 3 };

    ghost form = { is_name };

    ghost value = { λ sizes. value_under sizes.held };

    fn headers(&self) -> &'static [&'static [&'static str]] {
        &[&["box", "size"]]
    }

    fn most_rows(&self) -> u32 {
        3
    }

    fn has_form(&self, field: &[u8]) -> bool {
        is_name_field(field)
    }

    fn find(&self, name: &[u8]) -> Option<u64> {
        self.held.value(name)
    }
}

// The sizes by name: `large` is 40 and `small` is 2.
fn both_sizes(alloc: Global) -> Result<NameIndex<u64>, TableFault> {
    let mut held = NameIndex::new(alloc);
    for (name, size) in [(b"large".as_slice(), 40), (b"small".as_slice(), 2)] {
        if held.add(alloc, name, size).is_err() {
            return Err(TableFault::OutOfMemory);
        }
    }
    Ok(held)
}

// The sizes of the boxes 1 to 3 that a text states, in which names have these sizes.
fn sizes_of(alloc: Global, text: &str) -> Result<Vec<Option<u64>>, TableFault> {
    let held = both_sizes(alloc)?;
    let table = NumberedTable::new(alloc, 3, Sizes { held })?;
    let (_, values) = read_table(alloc, text.as_bytes(), table)?.into_parts();
    Ok(values)
}

// Whether a text states these sizes.
fn has_sizes(alloc: Global, text: &str, sizes: &[Option<u64>]) -> bool {
    match sizes_of(alloc, text) {
        Ok(values) => values.as_slice() == sizes,
        Err(_) => false,
    }
}

// Texts that are refused: the record and the cause.
const BAD_TEXTS: &[(&str, u64, Cause)] = &[
    ("size,box\n", 1, Cause::BadHeader),
    ("box,size\n1,small\n2\n", 3, Cause::FieldCount),
    ("box,size\n1,small\nx,small\n", 3, Cause::BadField),
    ("box,size\n4,small\n", 2, Cause::Unknown),
    ("box,size\n1,tiny\n", 2, Cause::Unknown),
    ("box,size\n1,small\n1,large\n", 3, Cause::Duplicate),
];

#[test]
fn reads_values_by_number(rt: HostRuntime) {
    let sizes = [Some(40), None, Some(2)];
    assert!(rt; has_sizes(rt.alloc(), "box,size\n3,small\n1,large\n", &sizes));
}

#[test]
fn refuses_texts_with_their_first_fault(rt: HostRuntime) {
    for (text, row, cause) in BAD_TEXTS {
        let fault = sizes_of(rt.alloc(), text).err();
        assert!(rt; fault == Some(bad_row(*row, *cause)), "{text}");
    }
}

#[test]
fn gives_values_in_the_order_of_names(rt: HostRuntime) {
    let held = both_sizes(rt.alloc()).expect(&rt, "memory");
    let sizes = held.into_values(rt.alloc()).expect(&rt, "memory");
    assert!(rt; sizes.as_slice() == [40, 2].as_slice());
}
