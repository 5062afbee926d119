// Texts with their canonical texts, and the access that clauses give vehicles.
use super::is_printed;
use conditional_rules::{
    Access, Conditional, ConditionalFault, decide, lets_in, parse, print, read_value,
};
use opening_hours::Holidays;
use std::alloc::{AllocError, Global};
use std::process::Abort;
use vehicle_classes::{Vehicle, Vehicles, read_vehicles};

// Whether this is the canonical text of a text, or the text has no clauses and this is empty.
fn has_canonical(alloc: Global, text: &str, canonical: &str) -> bool {
    match parse(alloc, text.as_bytes()) {
        Ok(conditional) => is_printed(&print(alloc, &conditional), canonical),
        Err(fault) => fault == ConditionalFault::NotConditional && canonical.is_empty(),
    }
}

// In each row a text, and behind `~` its canonical text, which is empty where the text has no clauses.
const TEXTS: &str = "\
no @ (weight > 7.5t and Sa 07:00-20:00)~no @ (weight>7.500 AND Sa 07:00-20:00)
no @ (weight>7.5 AND Mo-Fr 6:00-9:00); yes @ articulated~no @ (weight>7.500 AND Mo-Fr 06:00-09:00); yes @ (articulated)
no@(a AND b and c)~no @ (a AND b AND c)
no @ a AND b~no @ (a AND b)
no @ (a\tAND  b)~no @ (a AND b)
no @ (a ANDb)~
no @ (aAND b)~
no @ (a And b)~
no @ (a AND AND b)~
no @ (AND b)~
no @ (a AND)~
no @ (a AND )~
no @ (a, b)~
no@(24/7)~no @ (00:00-24:00)
no @ 24/7~no @ (00:00-24:00)
no @ off~no @ (off)
no @ (closed)~no @ (off)
no @ open~
no @ (Mo 22:00-06:00; PH off)~no @ (Mo 22:00-30:00; PH off)
no @ Mo 22:00-06:00; PH off~
no @ (Mo 22:00-06:00;)~
no @ (sunset-sunrise)~
no @ (Su[1])~no @ (Su[1] 00:00-24:00)
no @ Fr [-1]~no @ (Fr[-1] 00:00-24:00)
no @ (Su[1],Fr[-1] 8:00-9:00; PH off AND weight>7.5)~no @ (Su[1],Fr[-1] 08:00-09:00; PH off AND weight>7.500)
no @ (Su[1] AND)~
no @ (Su[6])~
no @ weight>7,5~
no @ weight>7.5 t~no @ (weight>7.500)
no @ weight\t==\t007.50t~no @ (weight=7.500)
no @ weight=7~no @ (weight=7.000)
no @ axleload<=11.5~no @ (axleload<=11.500)
no @ height<4m~no @ (height<4.00)
no @ width>=2.55 m~no @ (width>=2.55)
no @ length>18.7~no @ (length>18.70)
no @ axles>=3~no @ (axles>=3)
no @ axles>=3t~
no @ axles>=3.0~
no @ weight>999999.999~no @ (weight>999999.999)
no @ weight>1000000~
no @ weight>0000007~
no @ weight>7.1234~
no @ height>4.123~
no @ weight>7.~
no @ weight>.5~
no @ weight>~
no @ weight=>7~
no @ weight< =7~
no @ weight>-7~
no @ weight>7.5T~
no @ weight>7.5m~
no @ weight>7.5kg~
no @ Weight>7.5~
no @ speed>80~
no @ 7.5<weight~
no @ weight~no @ (weight)
yes @ low_emission~yes @ (low_emission)
no @ mo~no @ (mo)
no @ hazmat2~
no @ HAZMAT~
no @ _hazmat~
no @ (two words)~
no @ and~
no @ ()~
no @ ( )~
no @ ((a))~
no @ (a AND (b))~
no @ (a) AND (b)~
no @ (a~
no @ a)~
(no @ a)~
no @ (a) b~
no @ (a);yes @ b ;no@c~no @ (a); yes @ (b); no @ (c)
no @ (a; yes @ b)~
no @ a;~
; no @ a~
no @ a;; yes @ b~
no @ a @ b~
destination @ a; delivery @ b; permit @ c~destination @ (a); destination @ (b); no @ (c)
designated @ a;permissive @ b;discouraged @ c~yes @ (a); yes @ (b); yes @ (c)
maybe @ (24/7)~
No @ a~
no~
no @~
@ a~
 \tno\t @ \t( \ta\t AND b \t)\t ~no @ (a AND b)
no @ a\r~
~
 \t ~
";

// Whether the text of a row has its canonical text.
fn is_row(alloc: Global, row: &str) -> bool {
    match row.split_once('~') {
        Some((text, canonical)) => has_canonical(alloc, text, canonical),
        None => false,
    }
}

#[test]
fn texts_have_these_canonical_texts(rt: HostRuntime) {
    for row in TEXTS.lines() {
        assert!(rt; is_row(rt.alloc(), row), "{row}");
    }
}

const VEHICLES: &str = "\
name,class,weight_kg,axleload_kg,height_cm,width_cm,length_cm,axles,purpose,flags\n\
truck,hgv,40000,,400,255,1875,5,through,hazmat articulated\n\
van,goods,3500,,,,,2,delivery,\n\
";

// A public holiday on 2020-12-25, a Friday, and a school holiday on 2020-07-06.
fn two_holidays(alloc: Global) -> Result<Holidays, AllocError> {
    let mut public = Vec::new(alloc);
    public.push(18621)?;
    let mut school = Vec::new(alloc);
    school.push(18449)?;
    Ok(Holidays::from_days(public, school))
}

// A day, a minute, and rows: a vehicle and a conditional value, and behind `~` a value of the access, which is empty where no clause
// holds. Day 18447 is 2020-07-04, a Saturday.
const DECISIONS: &[(u32, u32, &str)] = &[
    (
        18447,
        0,
        "truck no @ weight>7.5~no\n\
        van no @ weight>7.5~\n\
        any no @ weight>7.5~\n\
        any no @ weight<=7.5~\n\
        truck no @ axleload<999~\n\
        truck no @ weight<40~\n\
        truck no @ weight<=40~no\n\
        truck no @ weight>40~\n\
        truck no @ weight>=40~no\n\
        truck no @ weight=40~no\n\
        truck no @ weight==39.999~\n\
        truck no @ height>3.99~no\n\
        truck no @ width>2.55~\n\
        truck no @ length<18.76~no\n\
        truck no @ axles>=3~no\n\
        van no @ axles>=3~\n\
        truck destination @ hazmat~destination\n\
        van destination @ hazmat~\n\
        truck no @ haz~",
    ),
    (18447, 419, "truck no @ (weight>7.5 AND Sa 07:00-20:00)~"),
    (18447, 420, "truck no @ (weight>7.5 AND Sa 07:00-20:00)~no"),
    (18447, 1199, "truck no @ (weight>7.5 AND Sa 07:00-20:00)~no"),
    (18447, 1200, "truck no @ (weight>7.5 AND Sa 07:00-20:00)~"),
    (18448, 600, "truck no @ (weight>7.5 AND Sa 07:00-20:00)~"),
    (18447, 600, "van no @ (weight>7.5 AND Sa 07:00-20:00)~"),
    (
        18447,
        0,
        "truck no @ height>3.8; yes @ hazmat~yes\n\
        truck yes @ hazmat; no @ height>3.8~no\n\
        truck no @ height>3.8; yes @ tall~no\n\
        any no @ 24/7; destination @ off~no",
    ),
    (18621, 0, "any no @ PH~no"),
    (18620, 1439, "any no @ PH~"),
    (18449, 0, "any no @ SH~no"),
    (18621, 0, "any no @ SH~"),
    (18620, 1320, "any no @ (Mo-Fr 22:00-06:00; PH off)~no"),
    (18621, 359, "any no @ (Mo-Fr 22:00-06:00; PH off)~no"),
    (18621, 360, "any no @ (Mo-Fr 22:00-06:00; PH off)~"),
    (18621, 1320, "any no @ (Mo-Fr 22:00-06:00; PH off)~"),
    (18622, 359, "any no @ (Mo-Fr 22:00-06:00; PH off)~"),
];

// Whether a value gives the vehicle this access at a minute of a day.
fn is_given(
    conditional: &Conditional,
    vehicle: &Vehicle,
    holidays: &Holidays,
    (day, minute): (u32, u32),
    access: Option<Access>,
) -> bool {
    7 <= day
        && day <= 84370
        && minute < 1440
        && decide(conditional, vehicle, day, minute, holidays) == access
}

// Whether a value gives the vehicle of this name the access at a time.
fn is_decided(
    alloc: Global,
    vehicles: &Vehicles,
    holidays: &Holidays,
    time: (u32, u32),
    (name, text, access): (&str, &str, &str),
) -> bool {
    let Some(place) = vehicles.find(name.as_bytes()) else {
        return false;
    };
    let access = read_value(access.as_bytes());
    match parse(alloc, text.as_bytes()) {
        Ok(conditional) => {
            let vehicle = vehicles.vehicle(place);
            is_given(&conditional, vehicle, holidays, time, access)
        }
        Err(_) => false,
    }
}

// The vehicle, the value and the access of a row.
fn parts_of(row: &str) -> Option<(&str, &str, &str)> {
    let (name, rest) = row.split_once(' ')?;
    let (text, access) = rest.split_once('~')?;
    Some((name, text, access))
}

// Compares the access of each row at a time.
fn expect_decided<R: Abort + AllocGlobal>(
    rt: &R,
    vehicles: &Vehicles,
    holidays: &Holidays,
    time: (u32, u32),
    rows: &str,
) {
    for row in rows.lines() {
        let decided = match parts_of(row) {
            Some(parts) => is_decided(rt.alloc(), vehicles, holidays, time, parts),
            None => false,
        };
        assert!(rt; decided, "{row} at {time:?}");
    }
}

#[test]
fn the_last_clause_that_holds_decides(rt: HostRuntime) {
    let vehicles = read_vehicles(rt.alloc(), VEHICLES.as_bytes()).expect(&rt, "vehicles");
    let holidays = two_holidays(rt.alloc()).expect(&rt, "memory");
    for (day, minute, rows) in DECISIONS {
        expect_decided(&rt, &vehicles, &holidays, (*day, *minute), rows);
    }
}

// Words, and the access that each of them gives.
const VALUES: &[(&str, Option<Access>)] = &[
    ("yes designated permissive discouraged", Some(Access::Free)),
    (
        "no private agricultural forestry customers permit",
        Some(Access::Barred),
    ),
    ("destination delivery", Some(Access::Purpose)),
    ("maybe Yes none through emergency", None),
];

// Whether each of these words gives this access.
fn each_gives(words: &str, access: Option<Access>) -> bool {
    for word in words.split(' ') {
        if read_value(word.as_bytes()) != access {
            return false;
        }
    }
    true
}

#[test]
fn values_give_these_accesses(rt: HostRuntime) {
    for (words, access) in VALUES {
        assert!(rt; each_gives(words, *access), "{words}");
    }
    assert!(rt; read_value(b"").is_none() && read_value(b"yes ").is_none());
}

// Accesses, and whether each lets the truck and the van in.
const LET_IN: &[(Access, bool, bool)] = &[
    (Access::Free, true, true),
    (Access::Barred, false, false),
    (Access::Purpose, false, true),
];

// Whether an access lets the vehicle of this name in just as told.
fn lets_in_as_told(vehicles: &Vehicles, access: Access, name: &str, told: bool) -> bool {
    match vehicles.find(name.as_bytes()) {
        Some(place) => lets_in(access, vehicles.vehicle(place)) == told,
        None => false,
    }
}

#[test]
fn accesses_let_these_purposes_in(rt: HostRuntime) {
    let vehicles = read_vehicles(rt.alloc(), VEHICLES.as_bytes()).expect(&rt, "vehicles");
    for (access, truck, van) in LET_IN {
        assert!(rt;
            lets_in_as_told(&vehicles, *access, "truck", *truck),
            "{access:?}"
        );
        assert!(rt;
            lets_in_as_told(&vehicles, *access, "van", *van),
            "{access:?}"
        );
    }
}
