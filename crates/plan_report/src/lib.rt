//! The texts that the planner prints: routes in four forms, closed minutes, verdicts on certificates, batches, summaries of networks
//! that were made, and refusals.
//!
//! The law is in `specs/`. `Reports` is the text of routes in each form, over `Plain`, `Table`, `Csv` and `Json`; `Routes` and `Stages`
//! have what the table and the CSV text share: a text for each leg, by the position before it, and the texts before and behind the legs.
//! `Bans`, `Check`, `Batch`, `Summary` and `Refusals` are the other texts.
//!
//! `plan_text`, `bans_text`, `check_text`, `batch_text`, `summary_text` and `refusal_text` give exactly these texts; `routes` goes over the
//! legs in each form that has a text for each (`RouteForm`). By the law `reports_agree`, settings of which one stands for the other have
//! the same texts.
//!
//! `Inside` is no law: it has what a writer keeps as it goes over the legs. `proofs/Going` shows that each position that it
//! carries along is the one before the next leg, and within the range of numbers and instants.
#![tactic(auto)]

mod bans;
mod batch;
mod check;
mod csv;
mod instants;
mod json;
mod laws;
mod outcomes;
mod places;
mod plain;
mod refusals;
mod reports;
mod routes;
mod summary;
mod table;

pub use bans::bans_text;
pub use batch::batch_text;
pub use check::check_text;
pub use laws::reports_agree;
pub use outcomes::{Refusal, Verdict3};
pub use plain::plain_text;
pub use refusals::refusal_text;
pub use reports::plan_text;
pub use summary::summary_text;
