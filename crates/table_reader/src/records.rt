// The records of a file, as csv reads them one after another.
ghost use Rattle.std.specs.Prelude.{◌≡◌, ◌∷◌, [], IfOk, true, false};
ghost use Rattle.csv.specs.Reading.{strip_bom};
ghost use Rattle.table_reader.specs.Inside.RecordReader.{records_left, IsRecordReader};
ghost use Rattle.table_reader.specs.Words.{fields_of, records_of};

use csv::{ByteRecord, Reader, ReaderBuilder};
use route_base::OutOfMemory;
use std::alloc::Global;

// The byte order mark in UTF-8.
const BYTE_ORDER_MARK: [u8; 3] = [0xEF, 0xBB, 0xBF];

// The bytes behind a byte order mark, if there is one.
fn without_mark(bytes: &[u8]) -> &[u8]
    ensures { result.now ≡ strip_bom bytes.now }
{
    match bytes.strip_prefix(&BYTE_ORDER_MARK) {
        Some(rest) => rest,
        None => bytes,
    }
}

/// A reader of the records of a file, behind a byte order mark at its start. Rows may differ in length.
#[tactic(auto, unfolding(crate::specs::Records::records_of, crate::specs::Inside::RecordReader::records_left))]
pub fn record_reader(alloc: Global, bytes: &[u8]) -> Reader<&[u8]>
    ensures ready { IsRecordReader result }
    ensures left { records_left result ≡ records_of bytes.now }
{
    ReaderBuilder::new()
        .has_headers(false)
        .flexible(true)
        .from_reader(alloc, without_mark(bytes))
}

/// Reads the next record into `row`, and answers whether there was one. Linear in its bytes. Over bytes in memory csv fails only
/// where memory runs out.
pub fn read_record(reader: &mut Reader<&[u8]>, row: &mut ByteRecord) -> Result<bool, OutOfMemory>
    requires { IsRecordReader reader.old }
    ensures ready { IfOk result (λ found. found ≡ true → IsRecordReader reader.new) }
    ensures next { IfOk result (λ found. found ≡ true →
        records_left reader.old ≡ fields_of row.new ∷ records_left reader.new) }
    ensures end { IfOk result (λ found. found ≡ false → records_left reader.old ≡ []) }
{
    let Ok(found) = reader.read_byte_record(row) else {
        return Err(OutOfMemory);
    };
    Ok(found)
}
