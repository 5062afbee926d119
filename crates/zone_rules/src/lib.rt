//! Time zones as tables of offsets: from a minute in UTC to the local day and minute of the day.
//!
//! The law is in `specs/Zones`: which rows are a zone, the offset at a minute, and the local day and minute of the day. It is
//! met here by `Zone::from_rows`, `rows`, `offset` and `wall`.
#![tactic(auto)]

mod row_checks;
mod rows;
mod threads;
mod zone;

pub use rows::{Wall, ZoneFault, ZoneRow};
pub use zone::Zone;
