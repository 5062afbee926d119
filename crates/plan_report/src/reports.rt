// The report of routes in each form.
ghost use Rattle.std.specs.Prelude.{◌≡◌, All, IfOk};
ghost use Rattle.plan_report.specs.Reports.{report_text};
ghost use Rattle.route_base.specs.Legs.{Achieves};
ghost use Rattle.route_base.specs.Net.{setting_of};
ghost use Rattle.route_base.specs.Time.{IsInstant};

use crate::csv::CsvRows;
use crate::json::json_text;
use crate::plain::plain_text;
use crate::routes::routes_text;
use crate::table::TableLines;
use route_base::{Form, OutOfMemory, Request, Routes, TimedNet};
use std::alloc::Global;

/// The report of a request's routes in a form. Linear in the number of legs.
pub fn plan_text(
    alloc: Global,
    form: Form,
    net: &TimedNet,
    request: Request,
    routes: &Routes,
) -> Result<Vec<u8>, OutOfMemory>
    requires lawful { All (λ x. Achieves (setting_of net.now) request x.legs x.pair) routes.now }
    requires depart { IsInstant request.depart }
    requires until { IsInstant request.until }
    ensures { IfOk result
        (λ text. text.items ≡ report_text form (setting_of net.now) request routes.now) }
{
    match form {
        Form::Plain => plain_text(alloc, routes),
        Form::Table => routes_text(alloc, &TableLines, net, request, routes),
        Form::Csv => routes_text(alloc, &CsvRows { request }, net, request, routes),
        Form::Json => json_text(alloc, routes),
    }
}
