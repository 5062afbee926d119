// The engine: the Pareto front is read from the goal's column of the cost table.
ghost use Rattle.std.specs.Prelude.{◌+◌, IfOk};
ghost use Rattle.plain_search.specs.Words.{setting_of, IsRight, cost_of, IsRouteAt, IsFinalTable, HasSoundLabel};

use crate::cost_table::{CostTable, NONE};
use crate::legs::tidied;
use crate::search::Search;
use route_base::{FrontSearch, Legs, Minute, OutOfMemory, Pair, Request, Route, Routes, TimedNet};
use std::alloc::Global;

impl Search<'_> {
    // The route that ends at the goal at a minute, by the first itinerary.
    fn route_at(
        &self,
        alloc: Global,
        table: &CostTable,
        arrival: Minute,
    ) -> Result<Route, OutOfMemory>
        requires label { HasSoundLabel self.now.net.now self.now.request
            (self.now.request.until + 1) table.now self.now.request.goal.0 arrival }
        requires relaxed { IsFinalTable self.now.net.now self.now.request table.now }
        ensures { IfOk result
            (IsRouteAt (setting_of self.now.net.now) self.now.request (cost_of table.now) arrival) }
    {
        let back = self.steps_back(alloc, table, arrival)?;
        let legs = tidied(alloc, back.as_slice())?;
        Ok(Route {
            pair: Pair {
                arrival,
                cost: table.cost(self.request.goal, arrival),
            },
            legs: Legs::from_vec(legs),
        })
    }

    // The routes to the goal, each cheaper than those that arrive before it.
    fn read_routes(&self, alloc: Global, table: &CostTable) -> Result<Vec<Route>, OutOfMemory>
        requires { IsFinalTable self.now.net.now self.now.request table.now }
        ensures { IfOk result (λ routes.
            IsRight (setting_of self.now.net.now) self.now.request routes.items) }
    {
        let mut routes = Vec::new(alloc);
        let mut best = NONE;
        for t in self.request.depart..self.request.until + 1 {
            let cost = table.cost(self.request.goal, t);
            if cost < best {
                routes.push(self.route_at(alloc, table, t)?)?;
                best = cost;
            }
        }
        Ok(routes)
    }
}

/// An engine that keeps a cost for each node and minute of the horizon.
///
/// It looks once at each node at each minute, and where an itinerary can be then, it relaxes each arc that leaves the node, with
/// a binary search in the arc's closed runs. So it takes time O((horizon + 1) · nodes + arcs), and for each node and minute that
/// some itinerary reaches, O(1 + log runs) for each arc that leaves the node. A route is found backwards, by a look at the
/// arcs that enter each of its nodes. It takes 8 bytes for each node and minute, and for each of the two lists of arcs
/// 8 bytes for each node and 4 bytes for each arc; while a list is made, 4 more for each node and arc.
#[derive(Clone, Copy, Debug)]
pub struct TableEngine;

impl FrontSearch for TableEngine {
    fn front(
        &self,
        alloc: Global,
        net: &TimedNet,
        request: Request,
    ) -> Result<Routes, OutOfMemory> {
        let search = Search::new(alloc, net, request)?;
        let table = search.least_costs(alloc)?;
        let routes = search.read_routes(alloc, &table)?;
        Ok(Routes::from_vec(routes))
    }
}
