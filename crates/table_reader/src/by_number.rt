// Tables that assign a value to a number (area to arc, weight to node).
ghost use Rattle.std.specs.Prelude.{◌≡◌, ◌∷◌, [], List, ℕ, Bool, None, Option, length, option_map, replicate, IfOk};
ghost use Rattle.csv.specs.Records.{fields_of};
ghost use Rattle.table_reader.specs.ByNumber.{numbered_of, numbered_in, numbered_schema, HaveValues};
ghost use Rattle.table_reader.specs.Records.{headers_of};

use crate::faults::RowFault;
use crate::fields::two_fields;
use crate::table::Table;
use csv::ByteRecord;
use route_base::{Cause, OutOfMemory, read_table_number};
use std::alloc::Global;
use std::marker::Model;

/// The values that the second fields of a table give, with the form of that table: a column of numbers and a column of fields.
pub trait FieldValues<V>: Drop {
    // The words above the numbers, and above the fields.
    ghost numbers: { List ℕ };

    ghost fields: { List ℕ };

    // The most data rows.
    ghost limit: { ℕ };

    // Whether a field has its form; else the row has the cause `BadField`.
    ghost form: { List ℕ → Bool };

    // The value of a field; where it has none, the row has the cause `Unknown`.
    ghost value: { Self → List ℕ → Option V };

    /// The header of the table, as the only one of a list.
    fn headers(&self) -> &'static [&'static [&'static str]]
        ensures { headers_of result.now ≡ (numbers ∷ fields ∷ []) ∷ [] };

    /// The most data rows that the table may have.
    fn most_rows(&self) -> u32
        ensures { result ≡ limit };

    /// Whether the field has its form. Linear in its bytes.
    fn has_form(&self, field: &[u8]) -> bool
        ensures { result ≡ form field.now };

    /// The value of the field, in constant time on average.
    fn find(&self, field: &[u8]) -> Option<V>
        ensures { result ≡ value self.now field.now };
}

/// The values assigned to the numbers 1, 2 and so on, and the source of the values.
#[derive(Drop)]
pub struct NumberedTable<S, V> {
    source: S,
    values: Vec<Option<V>>,
}

impl<S, V> Model for NumberedTable<S, V> {
    ghost use Rattle.table_reader.specs.ByNumber.{ValuesByNumber};

    ghost Value = { ValuesByNumber S V };

    ghost view = { λ t. record { source = t.source; values = t.values.items } };
}

impl<S: FieldValues<V>, V: Copy> NumberedTable<S, V> {
    /// No assignments yet, for the numbers from 1 to `count`. Linear in `count`, in time and memory.
    pub fn new(alloc: Global, count: u32, source: S) -> Result<Self, OutOfMemory>
        ensures size { IfOk result (λ t. length t.values ≡ count) }
        ensures source { IfOk result (λ t. t.source ≡ source) }
        ensures none { IfOk result (λ t. HaveValues S.value t t []) }
    {
        Ok(NumberedTable {
            source,
            values: no_values(alloc, count)?,
        })
    }

    /// The source, and the values by number, at no cost.
    pub fn into_parts(self) -> (S, Vec<Option<V>>)
        ensures source { result.0 ≡ self.source }
        ensures values { result.1.items ≡ self.values }
    {
        (self.source, self.values)
    }
}

// `count` times None.
fn no_values<V: Copy>(alloc: Global, count: u32) -> Result<Vec<Option<V>>, OutOfMemory>
    ensures { IfOk result (λ values. values.items ≡ replicate count None) }
{
    Ok(vec![in alloc; None; count as usize]?)
}

// Parses a data row.
fn read_numbered<'a, S: FieldValues<V>, V>(
    source: &S,
    row: &'a ByteRecord,
) -> Option<(u32, &'a [u8])>
    requires { length (fields_of row.now) ≡ 2 }
    ensures { option_map (λ r. (r.0, r.1.now)) result ≡ numbered_of S.form (fields_of row.now) }
{
    let (number, field) = two_fields(row);
    if !source.has_form(field) {
        return None;
    }
    Some((read_table_number(number)?, field))
}

impl<S: FieldValues<V>, V: Copy> Table for NumberedTable<S, V> {
    ghost schema = { λ t. numbered_schema S.numbers S.fields S.limit S.form (length t.values) (S.value t.source) };

    ghost becomes = { λ start t header rows. HaveValues S.value start t (numbered_in S.form rows) };

    fn headers(&self) -> &'static [&'static [&'static str]] {
        self.source.headers()
    }

    fn limit(&self) -> u32 {
        self.source.most_rows()
    }

    fn add(&mut self, _alloc: Global, _header: &[&str], row: &ByteRecord) -> Result<(), RowFault> {
        let Some((number, field)) = read_numbered(&self.source, row) else {
            return Err(RowFault::Bad(Cause::BadField));
        };
        let number = number as usize;
        if number < 1 || number > self.values.len() {
            return Err(RowFault::Bad(Cause::Unknown));
        }
        let Some(value) = self.source.find(field) else {
            return Err(RowFault::Bad(Cause::Unknown));
        };
        if self.values[number - 1].is_some() {
            return Err(RowFault::Bad(Cause::Duplicate));
        }
        self.values[number - 1] = Some(value);
        Ok(())
    }
}
