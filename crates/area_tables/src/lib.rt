//! Reads where and when an arc is: four tables (csv, RFC 4180) that say the time zones, the areas with their zones, the area of each
//! arc, and the holidays of each area.
//!
//! The law is in `specs/`. A module for each table says its schema and what its rows state, over `Schema` of `table_reader`: `Zones`
//! (with the zone `UTC`, which need not have a row), `Areas` (without rows the area `default` in `UTC`), `Roads` (an arc without a row
//! is in the first area) and `Holidays`. `AreaPlaces` says at which place among the zones that of each area is. It is met by
//! `read_zones`, `read_areas`, `read_roads` and `read_holidays`, each of which takes the bytes of its table and borrows what the
//! table's names are looked up in.
//!
//! `Inside` is no law: it says how two tables are held while they are read. `Words` re-exports what contracts cite.
//!
//! The tests are in the crate `network_tests`.
#![tactic(auto)]

mod areas;
mod holidays;
mod roads;
mod threads;
mod zones;

pub use areas::{Areas, read_areas};
pub use holidays::read_holidays;
pub use roads::read_roads;
pub use zones::{Zones, read_zones};
