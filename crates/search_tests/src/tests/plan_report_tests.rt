// The texts of a worked trip in each form, and one of each other text.
ghost use Rattle.std.specs.Prelude.{All};
ghost use Rattle.plan_report.specs.Inside.{IsLawful};
ghost use Rattle.route_base.specs.Net.{IsGoodRequest};
ghost use Rattle.route_base.specs.Time.{IsInstant};

use crate::tests::nets::worked_net;
use plan_report::{
    Refusal, Verdict3, bans_text, batch_text, check_text, plan_text, refusal_text, summary_text,
};
use route_base::{
    ArcId, BadInput, Cause, FileKind, Form, JobText, Leg, Legs, NodeId, OutOfMemory, Request,
    Route, Routes, Run, TimedNet, replay,
};
use std::alloc::Global;
use std::process::Abort;

const PLAIN: &str = "\
pairs 2\n\
pair 26563920 360.000\n\
drive 1\n\
wait 120\n\
drive 2\n\
pair 26563980 300.000\n\
drive 3\n";

const TABLE: &str = "\
routes 2\n\
route 1 arrive 2020-07-04T04:00Z cost 360.000\n\
2020-07-04T00:00Z drive 1 1 2 60\n\
2020-07-04T01:00Z wait 2 120\n\
2020-07-04T03:00Z drive 2 2 3 60\n\
route 2 arrive 2020-07-04T05:00Z cost 300.000\n\
2020-07-04T00:00Z drive 3 1 3 300\n";

const CSV: &str = "\
pair,leg,kind,arc,node,start,minutes,cost\n\
1,1,drive,1,1,2020-07-04T00:00Z,60,0.000\n\
1,2,wait,,2,2020-07-04T01:00Z,120,60.000\n\
1,3,drive,2,2,2020-07-04T03:00Z,60,300.000\n\
1,4,arrive,,3,2020-07-04T04:00Z,0,360.000\n\
2,1,drive,3,1,2020-07-04T00:00Z,300,0.000\n\
2,2,arrive,,3,2020-07-04T05:00Z,0,300.000\n";

const JSON: &str = "{\"pairs\":[\
{\"arrival\":26563920,\"cost\":360000,\"legs\":[\
{\"arc\":1,\"kind\":\"drive\"},{\"kind\":\"wait\",\"minutes\":120},{\"arc\":2,\"kind\":\"drive\"}]},\
{\"arrival\":26563980,\"cost\":300000,\"legs\":[{\"arc\":3,\"kind\":\"drive\"}]}]}\n";

// Adds the route of these legs, if they are lawful.
fn add_route(
    alloc: Global,
    net: &TimedNet,
    request: Request,
    routes: &mut Routes,
    legs: &[Leg],
) -> Result<(), OutOfMemory>
    requires good { IsGoodRequest net.now request }
    requires lawful { All (IsLawful net.now request) routes.old }
    ensures { All (IsLawful net.now request) routes.new }
{
    if let Ok(pair) = replay(net, request, legs) {
        let legs = Legs::from_vec(Vec::from_slice(alloc, legs)?);
        routes.push(Route { pair, legs })?;
    }
    Ok(())
}

// Adds the two routes of the worked trip, if they are lawful.
fn add_routes(
    alloc: Global,
    net: &TimedNet,
    request: Request,
    routes: &mut Routes,
) -> Result<(), OutOfMemory>
    requires good { IsGoodRequest net.now request }
    requires lawful { All (IsLawful net.now request) routes.old }
    ensures { All (IsLawful net.now request) routes.new }
{
    let legs = [Leg::Drive(ArcId(1)), Leg::Wait(120), Leg::Drive(ArcId(2))];
    add_route(alloc, net, request, routes, &legs)?;
    add_route(alloc, net, request, routes, &[Leg::Drive(ArcId(3))])
}

// Forms, and the text of the routes in each.
const FORMS: &[(Form, &str)] = &[
    (Form::Plain, PLAIN),
    (Form::Table, TABLE),
    (Form::Csv, CSV),
    (Form::Json, JSON),
];

// Compares the text of the routes in each form, and their summary.
fn expect_forms<R: Abort + AllocGlobal>(rt: &R, net: &TimedNet, request: Request, routes: &Routes)
    requires lawful { All (IsLawful net.now request) routes.now }
    requires depart { IsInstant request.depart }
    requires until { IsInstant request.until }
{
    for (form, text) in FORMS {
        let written = plan_text(rt.alloc(), *form, net, request, routes).expect(rt, "memory");
        assert!(rt; written.as_slice() == text.as_bytes(), "{text}");
    }
    let summary = summary_text(rt.alloc(), 3, 4, routes).expect(rt, "memory");
    assert!(rt; summary.as_slice() == SUMMARY.as_bytes());
}

// The summary of the routes over a network of three nodes and four arcs.
const SUMMARY: &str = "generated 3 4\npairs 2\nfirst 26563920 360.000\nlast 26563980 300.000\n";

#[test]
fn writes_each_form(rt: HostRuntime) {
    let net = worked_net(rt.alloc()).expect(&rt, "memory");
    let request = Request {
        origin: NodeId(1),
        goal: NodeId(3),
        depart: 26563680,
        until: 26564080,
    };
    let mut routes = Routes::new(rt.alloc());
    add_routes(rt.alloc(), &net, request, &mut routes).expect(&rt, "memory");
    expect_forms(&rt, &net, request, &routes);
}

#[test]
fn summarizes_no_routes(rt: HostRuntime) {
    let none = Routes::new(rt.alloc());
    let summary = summary_text(rt.alloc(), 1, 0, &none).expect(&rt, "memory");
    assert!(rt; summary.as_slice() == b"generated 1 0\npairs 0\n".as_slice());
}

// The texts of jobs, and the report of them all.
const BATCHES: &[(&[&str], &str)] = &[
    (&[], ""),
    (
        &["pairs 0\n", "", "refused request UnknownVehicle\n"],
        "job 1\npairs 0\njob 2\njob 3\nrefused request UnknownVehicle\n",
    ),
];

// The texts of jobs as lists of bytes.
fn jobs_of(alloc: Global, texts: &[&str]) -> Result<Vec<JobText>, OutOfMemory> {
    let mut jobs = Vec::new(alloc);
    for text in texts {
        jobs.push(JobText::from_vec(Vec::from_slice(alloc, text.as_bytes())?))?;
    }
    Ok(jobs)
}

#[test]
fn numbers_the_texts_of_jobs(rt: HostRuntime) {
    for (texts, report) in BATCHES {
        let jobs = jobs_of(rt.alloc(), texts).expect(&rt, "memory");
        let written = batch_text(rt.alloc(), &jobs).expect(&rt, "memory");
        assert!(rt; written.as_slice() == report.as_bytes(), "{report}");
    }
}

#[test]
fn writes_other_texts(rt: HostRuntime) {
    let run = Run {
        lo: 26563740,
        hi: 26563860,
    };
    let bans = bans_text(rt.alloc(), &[run], 2).expect(&rt, "memory");
    let closed = b"bans 1\nclosed 2020-07-04T01:00Z 2020-07-04T03:00Z\npassed 2\n";
    assert!(rt; bans.as_slice() == closed.as_slice());
    let rejected = check_text(rt.alloc(), Verdict3::Rejected(4), 2).expect(&rt, "memory");
    assert!(rt; rejected.as_slice() == b"rejected 4\n".as_slice());
    let fault = BadInput {
        file: FileKind::Graph,
        row: 3,
        cause: Cause::BadForm,
    };
    let refused = refusal_text(rt.alloc(), Refusal::Input(fault)).expect(&rt, "memory");
    assert!(rt; refused.as_slice() == b"refused input graph.gr 3 BadForm\n".as_slice());
}
