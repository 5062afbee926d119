// Texts with their canonical texts, and days with what is covered on them.
use super::is_printed;
use opening_hours::{Holidays, Hours, HoursFault, covers, parse, print, spans_on};
use std::alloc::{AllocError, Global};

// In each row a text, and behind `~` its canonical text, which is empty where the text has no rules.
const TEXTS: &str = "\
Jul-Aug: Mo,We 8:00-12:00, 13:00-17:00 open~Jul 01-Aug 31 Mo,We 08:00-12:00,13:00-17:00
24/7~00:00-24:00
Fr 22:00-06:00~Fr 22:00-30:00
Sa 22:00-Su 24:00~Sa 22:00-Mo 00:00
Mo 08:00-12:00 off~
Mo 25:00-26:00~
~
Jul~Jul 01-Jul 31 00:00-24:00
Jul:~Jul 01-Jul 31 00:00-24:00
Jul: open~Jul 01-Jul 31 00:00-24:00
Nov-Feb 06:00-07:00~Nov 01-Feb 31 06:00-07:00
Dec 24~Dec 24-Dec 24 00:00-24:00
Dec 24-26 off~Dec 24-Dec 26 off
Dec 24-Jan 06: off~Dec 24-Jan 06 off
Jul 5-Aug 7,Oct~Jul 05-Aug 07,Oct 01-Oct 31 00:00-24:00
Jan-Jan,Feb-Mar,Apr,May,Jun,Sep 1 off~Jan 01-Jan 31,Feb 01-Mar 31,Apr 01-Apr 31,May 01-May 31,Jun 01-Jun 31,Sep 01-Sep 01 off
Feb 30~Feb 30-Feb 30 00:00-24:00
Feb 32~
Jul 00~
Jan 01,06~
Jul 05-29:08:00-12:00~
Jul 05-29: 08:00-12:00~Jul 05-Jul 29 08:00-12:00
Jul12:00-13:00~Jul 01-Jul 31 12:00-13:00
Jul 12 12:00-13:00~Jul 12-Jul 12 12:00-13:00
Jul::~
: 08:00-12:00~
Jul-~
Jul,~
Jul-Aug 7~
2024 Jul~
Mo-Fr~Mo-Fr 00:00-24:00
Mo-Mo~Mo 00:00-24:00
Th-Tu,PH,SH 09:00-10:00~Th-Tu,PH,SH 09:00-10:00
PH off; SH closed~PH off; SH off
PH Mo 08:00-09:00~
Mo SH~
Mo-PH~
mo 08:00-09:00~
MO~
Mo08:00-09:00~Mo 08:00-09:00
Mo:08:00-09:00~
8:00-8:00~08:00-32:00
23:59-00:00~23:59-24:00
24:00-25:00~
22:00-48:00~22:00-48:00
22:00-48:01~
08:60-09:00~
08:00-09:60~
17:00+~
08:00~
8:0-9:00~
008:00-09:00~
08:000-09:00~
08:00 - 09:00~08:00-09:00
08 :00-09:00~
sunrise-sunset~
open~
off~off
closed~off
24/7 open~00:00-24:00
24/7open~00:00-24:00
24/7 off~
Jul 24/7~
24/7;PH off~00:00-24:00; PH off
08:00-12:00 open open~
08:00-12:00open~08:00-12:00
08:00-12:00off~
Mooff~
Mo Off~
Mo 08:00-12:00;~
;Mo~
Mo; ;Tu~
Mo 08:00-12:00, Tu 09:00-10:00~
Mo || Tu~
 24/7~
24/7 ~
Mo\t-  Tu\t08:00 -\t09:00 ; Sa~Mo-Tu 08:00-09:00; Sa 00:00-24:00
Sa 22:00-Su 22:00~Sa 22:00-Su 22:00
Mo 08:00-Mo 08:00~Mo 08:00-Mo 08:00
Mo 09:00-Mo 08:00~Mo 09:00-Mo 08:00
Jul: Fr 20:00-Mo 06:00 open~Jul 01-Jul 31 Fr 20:00-Mo 06:00
Fr 24:00-Mo 06:00~
Fr 22:00-Mo 24:01~
Fr 22:00-We 24:00~Fr 22:00-Th 00:00
Fr 22:00-Mo 06:00 off~
Fr,Sa 20:00-Su 06:00~
Fr 20:00-Mo 06:00,Tu 07:00-We 08:00~
Su[1]~Su[1] 00:00-24:00
Su [1]~Su[1] 00:00-24:00
Su[ -1 ]~Su[-1] 00:00-24:00
Su[-1] off~Su[-1] off
Mo[1]-Fr~
Su[0]~
Su[5]~Su[5] 00:00-24:00
Su[6]~
Su[01]~
Su[-05]~
Su[+1]~
Su[1,3]~
Su[1-2]~
Su[1]-Mo~
Su[--1]~
Su[]~
Su[1~
Su 1]~
[1]~
PH[1]~
Su[1:30]~
Su 5~
Fr [ - 1 ] 8:00-9:00~Fr[-1] 08:00-09:00
Jul Su[1],PH,Fr[-2],Mo-We 08:00-12:00~Jul 01-Jul 31 Su[1],PH,Fr[-2],Mo-We 08:00-12:00
Jul 5:Su[2]off;24/7~Jul 05-Jul 05 Su[2] off; 00:00-24:00
Su[1] 22:00-Mo 06:00~
Sa 22:00-Su[1] 06:00~
";

// Whether this is the canonical text of a text, or the text has no rules and this is empty.
fn has_canonical(alloc: Global, text: &str, canonical: &str) -> bool {
    match parse(alloc, text.as_bytes()) {
        Ok(hours) => is_printed(&print(alloc, &hours), canonical),
        Err(fault) => fault == HoursFault::NotHours && canonical.is_empty(),
    }
}

// Whether the text of a row has its canonical text.
fn is_row(alloc: Global, row: &str) -> bool {
    match row.split_once('~') {
        Some((text, canonical)) => has_canonical(alloc, text, canonical),
        None => false,
    }
}

#[test]
fn texts_have_these_canonical_texts_or_none(rt: HostRuntime) {
    for row in TEXTS.lines() {
        assert!(rt; is_row(rt.alloc(), row), "{row}");
    }
}

// Holidays without a school holiday, and with one public holiday.
fn one_holiday(alloc: Global, day: u32) -> Result<Holidays, AllocError> {
    let mut public = Vec::new(alloc);
    public.push(day)?;
    Ok(Holidays::from_days(public, Vec::new(alloc)))
}

// Whether there are two rules, by number.
fn has_two_rules(hours: &Hours) -> bool {
    hours.len() == 2 && hours.get(1).is_some() && hours.get(2).is_none()
}

// Whether just this many spans begin on a day, each at this minute and of this length.
fn has_spans(
    alloc: Global,
    hours: &Hours,
    holidays: &Holidays,
    day: u32,
    (count, start, length): (usize, u32, u32),
) -> bool {
    if day > 84370 {
        return false;
    }
    match spans_on(alloc, hours, day, holidays) {
        Ok(spans) => {
            spans.len() == count
                && spans
                    .as_slice()
                    .iter()
                    .all(|span| span.start == start && span.length == length)
        }
        Err(_) => false,
    }
}

// Whether a night begins on the weekday, and none on the next day, a holiday.
fn has_one_night(alloc: Global, holidays: &Holidays) -> bool {
    match parse(alloc, b"Mo-Fr 22:00-06:00; PH off") {
        Ok(hours) => {
            has_two_rules(&hours)
                && has_spans(alloc, &hours, holidays, 18451, (1, 1320, 480))
                && has_spans(alloc, &hours, holidays, 18452, (0, 1320, 480))
        }
        Err(_) => false,
    }
}

#[test]
fn the_governing_rule_of_a_day_has_its_spans(rt: HostRuntime) {
    let holidays = one_holiday(rt.alloc(), 18452).expect(&rt, "memory");
    assert!(rt; holidays.is_public(18452) && !holidays.is_school(18452));
    assert!(rt; has_one_night(rt.alloc(), &holidays));
}

// Minutes of days, each behind its day.
type Minutes<'a> = &'a [(u32, u32)];

// Hours, minutes that they cover, and minutes that they don't. Day 18447 is 2020-07-04, a Saturday.
const COVERED: &[(&str, Minutes<'static>, Minutes<'static>)] = &[
    // An off day doesn't cut the evening before.
    (
        "Mo-Fr 22:00-06:00; PH off",
        &[(18451, 1320), (18452, 359), (18453, 1320), (18454, 359)],
        &[(18451, 1319), (18452, 360), (18452, 1320), (18453, 100)],
    ),
    // A weekend.
    (
        "Sa 22:00-Su 22:00",
        &[(18447, 1320), (18448, 1319)],
        &[(18447, 1319), (18448, 1320)],
    ),
    // A whole week.
    (
        "Jul 06: Mo 08:00-Mo 08:00",
        &[(18449, 480), (18456, 479)],
        &[(18449, 479), (18456, 480)],
    ),
    // Dates across the end of the year.
    (
        "Dec 24-Jan 06 08:00-09:00",
        &[(18620, 480), (18627, 539), (18628, 480), (18633, 480)],
        &[(18619, 480), (18634, 480)],
    ),
    // In July 2020 the first Sunday is the 5th, day 18448, and the last Friday, the fifth, is the 31st; there is no fifth Monday.
    (
        "Su[1]",
        &[(18448, 0), (18448, 1439), (18476, 0)],
        &[(18447, 1439), (18449, 0), (18455, 0)],
    ),
    (
        "Fr[-1] 22:00-26:00; Fr[-5],Mo[5] 08:00-09:00",
        &[(18446, 480), (18474, 1320), (18475, 119), (18505, 480)],
        &[(18467, 1320), (18470, 480), (18474, 1319), (18475, 120)],
    ),
    // The last Tuesday of August 2020 is the 25th, when six days of the month are left.
    (
        "Tu[-1]",
        &[(18499, 0), (18499, 1439)],
        &[(18492, 0), (18498, 1439), (18500, 0)],
    ),
    // A later rule replaces the whole day.
    (
        "Mo-Fr 08:00-12:00; Mo 13:00-17:00",
        &[(18449, 800), (18450, 500)],
        &[(18449, 500)],
    ),
];

// Whether a minute of a day is covered, or isn't, as is told.
fn is_as_told(
    hours: &Hours,
    holidays: &Holidays,
    (day, minute): (u32, u32),
    covered: bool,
) -> bool {
    7 <= day && day <= 84370 && minute < 1440 && covers(hours, day, minute, holidays) == covered
}

// Whether the hours of a text cover all minutes of the first list, and none of the second.
fn covers_as_told(
    alloc: Global,
    text: &str,
    holidays: &Holidays,
    (covered, uncovered): (Minutes<'_>, Minutes<'_>),
) -> bool {
    match parse(alloc, text.as_bytes()) {
        Ok(hours) => {
            covered
                .iter()
                .all(|row| is_as_told(&hours, holidays, *row, true))
                && uncovered
                    .iter()
                    .all(|row| is_as_told(&hours, holidays, *row, false))
        }
        Err(_) => false,
    }
}

#[test]
fn these_minutes_are_covered_and_those_are_not(rt: HostRuntime) {
    let holidays = one_holiday(rt.alloc(), 18452).expect(&rt, "memory");
    for (text, covered, uncovered) in COVERED {
        let told = covers_as_told(rt.alloc(), text, &holidays, (*covered, *uncovered));
        assert!(rt; told, "{text}");
    }
}
