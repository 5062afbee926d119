// The fields of a record.
ghost use Rattle.std.specs.Prelude.{◌≡◌, ◌<◌, ◌∷◌, [], Some, length, map, slice_get};
ghost use Rattle.csv.specs.Records.{fields_of};
ghost use Rattle.table_reader.specs.Records.{record_eq};

use csv::ByteRecord;

/// The field at place i from 0.
pub fn field(row: &ByteRecord, i: usize) -> &[u8]
    requires { i < length (fields_of row.now) }
    ensures { slice_get (fields_of row.now) i ≡ Some result.now }
{
    row.get(i).unwrap()
}

/// The two fields of a record.
pub fn two_fields(row: &ByteRecord) -> (&[u8], &[u8])
    requires { length (fields_of row.now) ≡ 2 }
    ensures { fields_of row.now ≡ result.0.now ∷ result.1.now ∷ [] }
{
    (field(row, 0), field(row, 1))
}

/// The three fields of a record.
pub fn three_fields(row: &ByteRecord) -> (&[u8], &[u8], &[u8])
    requires { length (fields_of row.now) ≡ 3 }
    ensures { fields_of row.now ≡ result.0.now ∷ result.1.now ∷ result.2.now ∷ [] }
{
    (field(row, 0), field(row, 1), field(row, 2))
}

/// The four fields of a record.
pub fn four_fields(row: &ByteRecord) -> (&[u8], &[u8], &[u8], &[u8])
    requires { length (fields_of row.now) ≡ 4 }
    ensures { fields_of row.now
        ≡ result.0.now ∷ result.1.now ∷ result.2.now ∷ result.3.now ∷ [] }
{
    (field(row, 0), field(row, 1), field(row, 2), field(row, 3))
}

/// Whether the record has exactly these fields.
pub fn has_fields(row: &ByteRecord, words: &[&str]) -> bool
    ensures { result ≡ record_eq (fields_of row.now) (map (λ w. w.now) words.now) }
{
    if row.len() != words.len() {
        return false;
    }
    for (i, word) in words.iter().enumerate() {
        if field(row, i) != word.as_bytes() {
            return false;
        }
    }
    true
}
