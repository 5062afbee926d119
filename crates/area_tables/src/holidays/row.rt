// A data row of holidays.csv.
ghost use Rattle.std.specs.Prelude.{◌≡◌, ◌≤◌, IfSome, length, option_map};
ghost use Rattle.csv.specs.Records.{fields_of};
ghost use Rattle.route_base.specs.declared.limits.TheConstants.{LAST_DAY};
ghost use Rattle.area_tables.specs.Holidays.{kind_of, holiday_of};

use calendar_days::read_date;
use csv::ByteRecord;
use route_base::is_name_field;
use table_reader::three_fields;

/// The kind of a holiday, in the notation of OpenStreetMap's opening hours: `PH` or `SH`.
#[derive(Clone, Copy)]
pub enum HolidayKind {
    Public,
    School,
}

/// A holiday, its day in days since 1970-01-01.
#[derive(Clone, Copy)]
pub struct Holiday {
    pub kind: HolidayKind,
    pub day: u32,
}

// The kind of a word.
fn read_kind(word: &[u8]) -> Option<HolidayKind>
    ensures { result ≡ kind_of word.now }
{
    match word {
        b"PH" => Some(HolidayKind::Public),
        b"SH" => Some(HolidayKind::School),
        _ => None,
    }
}

/// Parses a data row: the area that it names, and the holiday. `None` exactly where a field isn't in its form.
pub fn read_holiday(row: &ByteRecord) -> Option<(&[u8], Holiday)>
    requires { length (fields_of row.now) ≡ 3 }
    ensures value { option_map (λ h. (h.0.now, h.1)) result ≡ holiday_of (fields_of row.now) }
    ensures small { IfSome result (λ h. h.1.day ≤ LAST_DAY) }
{
    let (area, kind, date) = three_fields(row);
    if !is_name_field(area) {
        return None;
    }
    let kind = read_kind(kind)?;
    let day = read_date(date).ok()?;
    Some((area, Holiday { kind, day }))
}
