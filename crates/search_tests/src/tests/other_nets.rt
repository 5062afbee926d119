// Latest departures, tours with stops and trips with driver breaks, over the table engine: worked nets, and random ones against a slow
// search straight from the rules.
mod calls;
mod random_trips;
mod slow_search;
mod stop_tables;
mod worked_arcs;
mod worked_breaks;
mod worked_late;
mod worked_tours;
