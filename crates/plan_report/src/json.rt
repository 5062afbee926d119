// Writes routes as JSON.
ghost use Rattle.std.specs.Prelude.{◌≡◌, ◌++◌, map, OnOk, IfOk};
ghost use Rattle.plan_report.specs.Inside.{json_head_text};
ghost use Rattle.plan_report.specs.Json.{leg_data, legs_data, route_data, json_text_of};
ghost use Rattle.serde_json.specs.Data.{array};
ghost use Rattle.serde_json.specs.View.{view, items_of};
ghost use Rattle.serde_json.specs.Written.{comma_if, compact_text};

use line_texts::{push_field, push_text};
use route_base::{Leg, OutOfMemory, Route, Routes};
use serde_json::{Value, json};
use std::alloc::{AllocError, Global};

// A leg as a value.
fn leg_value(alloc: Global, leg: Leg) -> Result<Value, AllocError>
    ensures { IfOk result (λ v. view v ≡ leg_data leg) }
{
    match leg {
        Leg::Drive(arc) => json!(in alloc; {"arc": arc.0, "kind": "drive"}),
        Leg::Wait(minutes) => json!(in alloc; {"kind": "wait", "minutes": minutes}),
    }
}

// Appends a leg.
fn push_leg(alloc: Global, out: &mut Vec<u8>, leg: Leg) -> Result<(), OutOfMemory>
    ensures { OnOk result (out.new.items ≡ out.old.items ++ compact_text (leg_data leg)) }
{
    let value = leg_value(alloc, leg)?;
    let text = value.to_string(alloc)?;
    push_text(out, text.as_str())
}

// Appends a comma, where an item stands before.
fn push_comma(out: &mut Vec<u8>, later: bool) -> Result<(), OutOfMemory>
    ensures { OnOk result (out.new.items ≡ out.old.items ++ comma_if later) }
{
    if later {
        push_text(out, ",")?;
    }
    Ok(())
}

// Appends the list of legs.
fn push_legs(alloc: Global, out: &mut Vec<u8>, legs: &[Leg]) -> Result<(), OutOfMemory>
    ensures { OnOk result (out.new.items ≡ out.old.items ++ compact_text (legs_data legs.now)) }
{
    let mut later = false;
    push_text(out, "[")?;
    for leg in legs {
        push_comma(out, later)?;
        push_leg(alloc, out, *leg)?;
        later = true;
    }
    push_text(out, "]")
}

// Appends the text of a route up to its legs.
fn push_head(out: &mut Vec<u8>, route: &Route) -> Result<(), OutOfMemory>
    ensures { OnOk result (out.new.items ≡ out.old.items ++ json_head_text route.now) }
{
    push_field(out, "{\"arrival\":", route.pair.arrival)?;
    push_field(out, ",\"cost\":", route.pair.cost)?;
    push_text(out, ",\"legs\":")?;
    Ok(())
}

// Appends a route.
fn push_route(alloc: Global, out: &mut Vec<u8>, route: &Route) -> Result<(), OutOfMemory>
    ensures { OnOk result
        (out.new.items ≡ out.old.items ++ compact_text (route_data route.now)) }
{
    push_head(out, route)?;
    push_legs(alloc, out, route.legs.as_slice())?;
    push_text(out, "}")?;
    Ok(())
}

// Appends the list of routes.
fn push_routes(alloc: Global, out: &mut Vec<u8>, routes: &[Route]) -> Result<(), OutOfMemory>
    ensures { OnOk result (out.new.items ≡ out.old.items
        ++ compact_text (array (items_of (map route_data routes.now)))) }
{
    let mut later = false;
    push_text(out, "[")?;
    for route in routes {
        push_comma(out, later)?;
        push_route(alloc, out, route)?;
        later = true;
    }
    push_text(out, "]")
}

/// The report as one line of JSON: an object with the list of the routes, each with its arrival in Unix minutes, its cost in
/// thousandths and its legs. Each leg is a value of `serde_json`, dropped as soon as it is printed. Linear in the number of legs.
pub fn json_text(alloc: Global, routes: &Routes) -> Result<Vec<u8>, OutOfMemory>
    ensures { IfOk result (λ text. text.items ≡ json_text_of routes.now) }
{
    let mut out = Vec::new(alloc);
    push_text(&mut out, "{\"pairs\":")?;
    push_routes(alloc, &mut out, routes.as_slice())?;
    push_text(&mut out, "}\n")?;
    Ok(out)
}
