// A data row of vehicles.csv.
ghost use Rattle.std.specs.Prelude.{◌≡◌, ◌∷◌, [], ◌||◌, nat_lt, length, map, filter, option_map, IfSome, IfOk};
ghost use Rattle.std.specs.List.{list_all, slice_split};
ghost use Rattle.csv.specs.Records.{fields_of};
ghost use Rattle.route_base.specs.Forms.{is_blank};
ghost use Rattle.vehicle_classes.specs.VehicleModel.{IsSmall};
ghost use Rattle.vehicle_classes.specs.VehicleParts.{AreSmall};
ghost use Rattle.vehicle_classes.specs.Vehicles.{class_of, purpose_of, size_in, sizes_of_fields, is_flag_byte, has_blank_end};
ghost use Rattle.vehicle_classes.specs.Vehicles.{flags_of, vehicle_of};

use crate::vehicle::{Sizes, Vehicle};
use crate::{Class, Purpose};
use csv::ByteRecord;
use route_base::limits::LARGEST_SIZE;
use route_base::{OutOfMemory, is_blank, is_name_field, read_table_number};
use std::alloc::{AllocError, Global};
use table_reader::field;

// The class that a word names.
fn read_class(word: &[u8]) -> Option<Class>
    ensures { result ≡ class_of word.now }
{
    if word == b"hgv".as_slice() {
        Some(Class::Hgv)
    } else if word == b"hgv_articulated".as_slice() {
        Some(Class::HgvArticulated)
    } else if word == b"goods".as_slice() {
        Some(Class::Goods)
    } else if word == b"bus".as_slice() {
        Some(Class::Bus)
    } else {
        None
    }
}

// The purpose that a word names; without a word it is to pass through.
fn read_purpose(word: &[u8]) -> Option<Purpose>
    ensures { result ≡ purpose_of word.now }
{
    if word.is_empty() || word == b"through".as_slice() {
        Some(Purpose::Through)
    } else if word == b"delivery".as_slice() {
        Some(Purpose::Delivery)
    } else {
        None
    }
}

// A size of at most 1,000,000, or none in an empty field.
fn read_size(field: &[u8]) -> Option<Option<u64>>
    ensures value { result ≡ size_in field.now }
    ensures small { IfSome result IsSmall }
{
    if field.is_empty() {
        return Some(None);
    }
    let size = read_table_number(field)?;
    if size <= LARGEST_SIZE {
        Some(Some(size as u64))
    } else {
        None
    }
}

// Whether a byte may stand in a field of flags.
fn is_byte_of_flags(b: u8) -> bool
    ensures { result ≡ (is_flag_byte b || is_blank b) }
{
    matches!(b, b'a'..=b'z' | b'_') || is_blank(b)
}

// Whether a blank stands first or last.
fn has_blank_end(field: &[u8]) -> bool
    ensures { result ≡ has_blank_end field.now }
{
    match field {
        [] => false,
        [first, ..] => is_blank(*first) || is_blank(field[field.len() - 1]),
    }
}

// Whether all bytes may stand in a field of flags.
fn are_bytes_of_flags(field: &[u8]) -> bool
    ensures { result ≡ list_all (λ b. is_flag_byte b || is_blank b) field.now }
{
    field.iter().all(|b| is_byte_of_flags(*b))
}

// The pieces between single blanks.
fn pieces_of(alloc: Global, field: &[u8]) -> Result<Vec<&[u8]>, AllocError>
    ensures { IfOk result (λ pieces.
        map (λ p. p.now) pieces.items ≡ slice_split is_blank field.now) }
{
    field.split(|b| is_blank(*b)).collect(alloc)
}

// Copies the pieces that aren't empty.
fn copied_words(alloc: Global, pieces: &[&[u8]]) -> Result<Vec<Vec<u8>>, OutOfMemory>
    ensures { IfOk result (λ words. map (λ w. w.items) words.items
        ≡ filter (λ word. nat_lt 0 (length word)) (map (λ p. p.now) pieces.now)) }
{
    let mut words = Vec::new(alloc);
    for piece in pieces {
        if !piece.is_empty() {
            words.push(Vec::from_slice(alloc, piece)?)?;
        }
    }
    Ok(words)
}

// The words of flags, with one or more blanks between them.
fn read_flags(alloc: Global, field: &[u8]) -> Result<Option<Vec<Vec<u8>>>, OutOfMemory>
    ensures { IfOk result (λ flags.
        option_map (λ words. map (λ w. w.items) words.items) flags ≡ flags_of field.now) }
{
    if has_blank_end(field) || !are_bytes_of_flags(field) {
        return Ok(None);
    }
    let pieces = pieces_of(alloc, field)?;
    Ok(Some(copied_words(alloc, &pieces)?))
}

// The fields of a row.
#[derive(Clone, Copy)]
struct RowFields<'a> {
    name: &'a [u8],
    class: &'a [u8],
    weight_kg: &'a [u8],
    axleload_kg: &'a [u8],
    height_cm: &'a [u8],
    width_cm: &'a [u8],
    length_cm: &'a [u8],
    axles: &'a [u8],
    purpose: &'a [u8],
    flags: &'a [u8],
}

// The ten fields of a row.
fn ten_fields(row: &ByteRecord) -> RowFields<'_>
    requires { length (fields_of row.now) ≡ 10 }
    ensures { fields_of row.now ≡ result.name.now ∷ result.class.now ∷ result.weight_kg.now
        ∷ result.axleload_kg.now ∷ result.height_cm.now ∷ result.width_cm.now ∷ result.length_cm.now
        ∷ result.axles.now ∷ result.purpose.now ∷ result.flags.now ∷ [] }
{
    RowFields {
        name: field(row, 0),
        class: field(row, 1),
        weight_kg: field(row, 2),
        axleload_kg: field(row, 3),
        height_cm: field(row, 4),
        width_cm: field(row, 5),
        length_cm: field(row, 6),
        axles: field(row, 7),
        purpose: field(row, 8),
        flags: field(row, 9),
    }
}

// The sizes that six fields of a row give.
fn read_sizes(row: &RowFields<'_>) -> Option<Sizes>
    ensures value { result ≡ sizes_of_fields row.now.weight_kg.now row.now.axleload_kg.now
        row.now.height_cm.now row.now.width_cm.now row.now.length_cm.now row.now.axles.now }
    ensures small { IfSome result AreSmall }
{
    Some(Sizes {
        weight_kg: read_size(row.weight_kg)?,
        axleload_kg: read_size(row.axleload_kg)?,
        height_cm: read_size(row.height_cm)?,
        width_cm: read_size(row.width_cm)?,
        length_cm: read_size(row.length_cm)?,
        axles: read_size(row.axles)?,
    })
}

// Parses a data row.
pub fn read_vehicle(
    alloc: Global,
    row: &ByteRecord,
) -> Result<Option<(&[u8], Vehicle)>, OutOfMemory>
    requires { length (fields_of row.now) ≡ 10 }
    ensures { IfOk result (λ entry.
        option_map (λ e. (e.0.now, e.1)) entry ≡ vehicle_of (fields_of row.now)) }
{
    let row = ten_fields(row);
    if !is_name_field(row.name) {
        return Ok(None);
    }
    let Some(class) = read_class(row.class) else {
        return Ok(None);
    };
    let Some(sizes) = read_sizes(&row) else {
        return Ok(None);
    };
    let Some(purpose) = read_purpose(row.purpose) else {
        return Ok(None);
    };
    let Some(flags) = read_flags(alloc, row.flags)? else {
        return Ok(None);
    };
    Ok(Some((row.name, Vehicle::new(class, purpose, sizes, flags))))
}
