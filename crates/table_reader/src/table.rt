// Reading a table: the part common to all tables.
ghost use Rattle.std.specs.Prelude.{◌≡◌, ◌<◌, ◌∷◌, ◌++◌, [], None, Some, List, length, is_some, IfSome, IfErr, OnOk, ◌^◌};
ghost use Rattle.table_reader.specs.Inside.RecordReader.{records_left, IsRecordReader};
ghost use Rattle.table_reader.specs.Words.{fields_of, IsOfContents, Schema, IsHeader, is_header, cause_after};
ghost use Rattle.table_reader.specs.Words.{row_fault_from, first_table_fault, Record, records_of, header_in, header_of, rows_in, rows_of};
ghost use Rattle.table_reader.specs.Words.{words_of, headers_of, IfBadCause, ReadsRows};

use crate::faults::RowFault;
use crate::fields::has_fields;
use crate::records::{read_record, record_reader};
use csv::{ByteRecord, Reader};
use route_base::{Cause, TableFault};
use std::alloc::Global;

/// A table's schema, and what its data rows state as they are added one after another.
pub trait Table: Drop {
    // The headers, the most rows and the causes that the table's file may have.
    ghost schema: { Self → Schema };

    // `becomes start now header rows`: adding these faultless rows under this header to the empty table `start` gives `now`.
    ghost becomes: { Self → Self → Record → List Record → Type 0 };

    /// The headers that the file may have.
    fn headers(&self) -> &'static [&'static [&'static str]]
        ensures { headers_of result.now ≡ (schema self.now).headers };

    /// The most data rows that the file may have.
    fn limit(&self) -> u32
        ensures { result ≡ (schema self.now).limit };

    /// Adds the next data row, which has a field for each word of the file's header. `Bad` is never `Missing` or `TooLong`.
    fn add(&mut self, alloc: Global, header: &[&str], row: &ByteRecord) -> Result<(), RowFault>
        requires known { IsHeader (schema self.old).headers (words_of header.now) }
        requires width { length (fields_of row.now) ≡ length (words_of header.now) }
        ensures same { OnOk result (schema self.new ≡ schema self.old) }
        ensures faultless { OnOk result ((start : Self) (before : List Record) →
            becomes start self.old (words_of header.now) before →
            (schema self.old).cause (words_of header.now) before (fields_of row.now) ≡ None) }
        ensures added { OnOk result ((start : Self) (before : List Record) →
            becomes start self.old (words_of header.now) before →
            becomes start self.new (words_of header.now) (before ++ fields_of row.now ∷ [])) }
        ensures refused { IfErr result (λ e. IfBadCause e (λ cause.
            (start : Self) (before : List Record) →
            becomes start self.old (words_of header.now) before →
            (schema self.old).cause (words_of header.now) before (fields_of row.now) ≡ Some cause)) }
        ensures cause { IfErr result (λ e. IfBadCause e IsOfContents) };
}

// Adds the next data row under the file's header, if it can; `count` rows come before it.
fn add_row<T: Table>(
    alloc: Global,
    table: &mut T,
    header: &[&str],
    count: usize,
    row: &ByteRecord,
) -> Result<(), RowFault>
    requires known { IsHeader (T.schema table.old).headers (words_of header.now) }
    ensures same { OnOk result (T.schema table.new ≡ T.schema table.old) }
    ensures few { OnOk result (count < 2 ^ 32) }
    ensures faultless { OnOk result ((start : T) (before : List Record) → length before ≡ count →
        T.becomes start table.old (words_of header.now) before →
        cause_after (T.schema table.old) (words_of header.now) before (fields_of row.now) ≡ None) }
    ensures added { OnOk result ((start : T) (before : List Record) →
        T.becomes start table.old (words_of header.now) before →
        T.becomes start table.new (words_of header.now) (before ++ fields_of row.now ∷ [])) }
    ensures refused { IfErr result (λ e. IfBadCause e (λ cause.
        (start : T) (before : List Record) → length before ≡ count →
        T.becomes start table.old (words_of header.now) before →
        cause_after (T.schema table.old) (words_of header.now) before (fields_of row.now) ≡ Some cause)) }
    ensures cause { IfErr result (λ e. IfBadCause e IsOfContents) }
{
    if row.len() != header.len() {
        return Err(RowFault::Bad(Cause::FieldCount));
    }
    if count >= table.limit() as usize {
        return Err(RowFault::Bad(Cause::SizeLimit));
    }
    table.add(alloc, header, row)
}

// Adds the data rows that a reader has left, of which one is in memory at a time.
fn add_rows<T: Table>(
    alloc: Global,
    table: &mut T,
    header: &[&str],
    reader: &mut Reader<&[u8]>,
    row: &mut ByteRecord,
) -> Result<(), TableFault>
    requires start { T.becomes table.old table.old (words_of header.now) [] }
    requires known { IsHeader (T.schema table.old).headers (words_of header.now) }
    requires ready { IsRecordReader reader.old }
    ensures { ReadsRows result
        (row_fault_from (T.schema table.old) (words_of header.now) [] (records_left reader.old))
        (λ _. T.becomes table.old table.new (words_of header.now) (records_left reader.old)) }
{
    let mut count = 0;
    'rows: while read_record(reader, row)? {
        match add_row(alloc, table, header, count, row) {
            Ok(()) => count += 1,
            Err(RowFault::Bad(cause)) => {
                return Err(TableFault::BadRow {
                    row: count as u64 + 2,
                    cause,
                });
            }
            Err(RowFault::OutOfMemory) => return Err(TableFault::OutOfMemory),
        }
    }
    Ok(())
}

// The header that the first record is, if it is one of these.
fn header_among<'a>(first: &ByteRecord, headers: &'a [&'a [&'a str]]) -> Option<&'a [&'a str]>
    ensures same { IfSome result (λ header. words_of header.now ≡ fields_of first.now) }
    ensures known { IfSome result (λ header.
        IsHeader (headers_of headers.now) (words_of header.now)) }
    ensures found { is_header (headers_of headers.now) (fields_of first.now) ≡ is_some result }
{
    for (i, header) in headers.iter().enumerate() {
        if has_fields(first, header) {
            return Some(headers[i]);
        }
    }
    None
}

// Reads the header, and then adds all data rows to an empty table. Each record is read into the same row.
#[tactic(auto, unfolding(crate::specs::Schema::first_table_fault))]
fn read_rows<T: Table>(
    alloc: Global,
    table: &mut T,
    reader: &mut Reader<&[u8]>,
    row: &mut ByteRecord,
) -> Result<(), TableFault>
    requires empty { (header : Record) → T.becomes table.old table.old header [] }
    requires ready { IsRecordReader reader.old }
    ensures { ReadsRows result (first_table_fault (T.schema table.old) (records_left reader.old))
        (λ _. T.becomes table.old table.new
        (header_in (records_left reader.old)) (rows_in (records_left reader.old))) }
{
    if !read_record(reader, row)? {
        return Ok(());
    }
    match header_among(row, table.headers()) {
        Some(header) => add_rows(alloc, table, header, reader, row),
        None => Err(TableFault::BadRow {
            row: 1,
            cause: Cause::BadHeader,
        }),
    }
}

/// Adds all data rows of a file to an empty table, by the header that the file has; a file without records has no rows. Linear
/// in the bytes, beside what the rows take.
///
/// `BadRow` names the first record that has a fault, from 1, and its cause, which is never `Missing` or `TooLong`.
pub fn read_table<T: Table>(alloc: Global, bytes: &[u8], mut table: T) -> Result<T, TableFault>
    requires { (header : Record) → T.becomes table table header [] }
    ensures { ReadsRows result (first_table_fault (T.schema table) (records_of bytes.now))
        (λ read. T.becomes table read (header_of bytes.now) (rows_of bytes.now)) }
{
    let mut reader = record_reader(alloc, bytes);
    let mut row = ByteRecord::new(alloc);
    read_rows(alloc, &mut table, &mut reader, &mut row)?;
    Ok(table)
}
