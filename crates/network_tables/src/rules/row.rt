// A data row of rules.csv.
ghost use Rattle.std.specs.Prelude.{◌≡◌, Ok, Err, IfOk, IfErr, length, option_map};
ghost use Rattle.csv.specs.Records.{fields_of};
ghost use Rattle.table_reader.specs.NameIndex.{names_of};
ghost use Rattle.table_reader.specs.Refusals.{IfBadCause};
ghost use Rattle.network_tables.specs.Rules.{after, before, key_field_of, scope_of, rule_of};

use super::place::{RulePlace, Scope};
use super::value::{RuleValue, read_rule_value};
use area_tables::Areas;
use csv::ByteRecord;
use route_base::{Cause, is_name_field, read_table_number};
use std::alloc::Global;
use table_reader::{RowFault, three_fields};
use vehicle_classes::{Key, read_key};

// The bytes after a mark at the start of a text.
fn after<'a>(mark: &[u8], text: &'a [u8]) -> Option<&'a [u8]>
    ensures { option_map (λ rest. rest.now) result ≡ after mark.now text.now }
{
    text.strip_prefix(mark)
}

// The bytes before a mark at the end of a text.
fn before<'a>(mark: &[u8], text: &'a [u8]) -> Option<&'a [u8]>
    ensures { option_map (λ rest. rest.now) result ≡ before mark.now text.now }
{
    text.strip_suffix(mark)
}

// The key of a field, and whether its values are conditional.
fn read_key_field(field: &[u8]) -> Option<(Key, bool)>
    ensures { result ≡ key_field_of field.now }
{
    match before(b":conditional", field) {
        Some(word) => Some((read_key(word)?, true)),
        None => Some((read_key(field)?, false)),
    }
}

// The scope of a field over these arcs and areas.
fn read_scope(arcs: u32, areas: &Areas, field: &[u8]) -> Result<Scope, Cause>
    ensures { result ≡ scope_of arcs (names_of areas.now) field.now }
{
    if let Some(number) = after(b"arc:", field) {
        let Some(number) = read_table_number(number) else {
            return Err(Cause::BadField);
        };
        return if 1 <= number && number <= arcs {
            Ok(Scope::Arc(number))
        } else {
            Err(Cause::Unknown)
        };
    }
    let Some(name) = after(b"area:", field) else {
        return Err(Cause::BadField);
    };
    if !is_name_field(name) {
        return Err(Cause::BadField);
    }
    match areas.place(name) {
        Some(place) => Ok(Scope::Area(place as usize)),
        None => Err(Cause::Unknown),
    }
}

/// Parses a data row: the place and the value of its rule; `None` for a row whose key is passed over. Linear in its bytes.
pub fn read_rule(
    alloc: Global,
    arcs: u32,
    areas: &Areas,
    row: &ByteRecord,
) -> Result<Option<(RulePlace, RuleValue)>, RowFault>
    requires { length (fields_of row.now) ≡ 3 }
    ensures rule { IfOk result (λ rule. rule_of arcs (names_of areas.now) (fields_of row.now)
        ≡ Ok rule) }
    ensures refused { IfErr result (λ e. IfBadCause e (λ cause.
        rule_of arcs (names_of areas.now) (fields_of row.now) ≡ Err cause)) }
{
    let (scope, key, value) = three_fields(row);
    let scope = match read_scope(arcs, areas, scope) {
        Ok(scope) => scope,
        Err(cause) => return Err(RowFault::Bad(cause)),
    };
    let Some((key, conditional)) = read_key_field(key) else {
        return Ok(None);
    };
    let value = read_rule_value(alloc, conditional, value)?;
    Ok(Some((
        RulePlace {
            scope,
            key,
            conditional,
        },
        value,
    )))
}
