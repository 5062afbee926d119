// Writes routes leg by leg, in a form that has a text for each leg.
ghost use Rattle.std.specs.Prelude.{◌≡◌, ◌+◌, ◌<◌, ◌++◌, ◌^◌, All, OnOk, IfOk, length};
ghost use Rattle.plan_report.specs.Inside.{position_at, stage_in, IsPassable, IsLawful, HasInstants, LeadsOn};
ghost use Rattle.plan_report.specs.Routes.{RouteTexts, legs_text, route_text, routes_text};
ghost use Rattle.plan_report.specs.Stages.{numbered_text};
ghost use Rattle.route_base.specs.Legs.{Achieves};
ghost use Rattle.route_base.specs.Net.{setting_of};
ghost use Rattle.route_base.specs.Time.{IsInstant};

use crate::places::{Stage, first_place, next_place};
use route_base::{Leg, OutOfMemory, Pair, Request, Route, Routes, TimedNet};
use std::alloc::Global;

/// A form of the report that has a text for each leg of a route. It may have texts before all routes, and before and behind the legs of each.
pub trait RouteForm {
    /// The texts of the form.
    ghost texts: { Self → RouteTexts };

    /// Appends what stands before the routes.
    fn push_start(&self, out: &mut Vec<u8>, count: u64) -> Result<(), OutOfMemory>
        ensures { OnOk result
            (out.new.items ≡ out.old.items ++ (texts self.now).start count) };

    /// Appends what stands before the legs of a route.
    fn push_head(&self, out: &mut Vec<u8>, number: u64, route: &Route) -> Result<(), OutOfMemory>
        requires { IsInstant route.now.pair.arrival }
        ensures { OnOk result
            (out.new.items ≡ out.old.items ++ (texts self.now).head number route.now) };

    /// Appends the text of a leg.
    fn push_leg(&self, out: &mut Vec<u8>, net: &TimedNet, stage: Stage) -> Result<(), OutOfMemory>
        requires passable { IsPassable (setting_of net.now) (position_at stage.from) stage.leg }
        requires to { LeadsOn (setting_of net.now) stage }
        ensures { OnOk result (out.new.items ≡ out.old.items
            ++ (texts self.now).leg (setting_of net.now) stage.route (stage_in stage)) };

    /// Appends what stands behind the legs of a route.
    fn push_end(&self, out: &mut Vec<u8>, number: u64, route: &Route) -> Result<(), OutOfMemory>
        requires arrival { IsInstant route.now.pair.arrival }
        requires few { length route.now.legs + 1 < 2 ^ 64 }
        ensures { OnOk result
            (out.new.items ≡ out.old.items ++ (texts self.now).end number route.now) };
}

// Appends the texts of the legs of a pair.
fn push_legs<F: RouteForm>(
    form: &F,
    out: &mut Vec<u8>,
    net: &TimedNet,
    request: Request,
    legs: &[Leg],
    pair: Pair,
    number: u64,
) -> Result<(), OutOfMemory>
    requires timed { HasInstants request }
    requires lawful { Achieves (setting_of net.now) request legs.now pair }
    ensures { OnOk result (out.new.items ≡ out.old.items
        ++ legs_text (F.texts form.now) (setting_of net.now) request number legs.now) }
{
    let mut from = first_place(request);
    for i in 0..legs.len() {
        let to = next_place(net, from, legs[i]);
        let stage = Stage {
            route: number,
            number: i as u64 + 1,
            from,
            to,
            leg: legs[i],
        };
        form.push_leg(out, net, stage)?;
        from = to;
    }
    Ok(())
}

// Appends the text of a route.
fn push_route<F: RouteForm>(
    form: &F,
    out: &mut Vec<u8>,
    net: &TimedNet,
    request: Request,
    number: u64,
    route: &Route,
) -> Result<(), OutOfMemory>
    requires timed { HasInstants request }
    requires lawful { IsLawful net.now request route.now }
    ensures { OnOk result (out.new.items ≡ out.old.items
        ++ route_text (F.texts form.now) (setting_of net.now) request number route.now) }
{
    route_base::net_is_good(net);
    form.push_head(out, number, route)?;
    push_legs(
        form,
        out,
        net,
        request,
        route.legs.as_slice(),
        route.pair,
        number,
    )?;
    form.push_end(out, number, route)
}

// Appends the texts of routes, numbered from 1.
fn push_each<F: RouteForm>(
    form: &F,
    out: &mut Vec<u8>,
    net: &TimedNet,
    request: Request,
    routes: &[Route],
) -> Result<(), OutOfMemory>
    requires timed { HasInstants request }
    requires lawful { All (IsLawful net.now request) routes.now }
    ensures { OnOk result (out.new.items ≡ out.old.items
        ++ numbered_text (route_text (F.texts form.now) (setting_of net.now) request) 1 routes.now) }
{
    for i in 0..routes.len() {
        push_route(form, out, net, request, i as u64 + 1, &routes[i])?;
    }
    Ok(())
}

/// The report of a request's routes in the form. Linear in the number of legs.
pub fn routes_text<F: RouteForm>(
    alloc: Global,
    form: &F,
    net: &TimedNet,
    request: Request,
    routes: &Routes,
) -> Result<Vec<u8>, OutOfMemory>
    requires timed { HasInstants request }
    requires lawful { All (IsLawful net.now request) routes.now }
    ensures { IfOk result (λ v. v.items
        ≡ routes_text (F.texts form.now) (setting_of net.now) request routes.now) }
{
    let mut out = Vec::new(alloc);
    form.push_start(&mut out, routes.len() as u64)?;
    push_each(form, &mut out, net, request, routes.as_slice())?;
    Ok(out)
}
