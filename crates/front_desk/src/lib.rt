//! The program itself: from command-line words and files to the printed answer.
//!
//! `requests` checks a request and finds its vehicle, and `networks` makes the net of a trip over a network that `network_folder` has loaded:
//! `net_for` does both, and `net_within` for a shorter time. `batch_trips` plans the jobs of a batch over nets that trips share (`shared_nets`).
//! Each command has a module of its own, `plan`, `judgement` (of certificates), `bans`, `latest`, `batch`, `generation` (of networks), `tour`,
//! `rested_tour` (under a break rule), `breaks` and `explain`; `commands` has one case for each. `desk` has the top call, `run`, and
//! `run_gated`, whose workers go through a gate; `outcome` says how a command may end; `laws` has the numbers of the limits, the law that
//! `check` accepts what `plan` writes, the law of explanations, that of one text for one request, and in `nets` those by which an answer over
//! the net of a trip is one over the network's roads. The commands are those of `front_words`; reports and the lines of refusals are those of
//! `plan_report`, latest departures those of `latest_departure`, tours those of `stop_tour` and `rested_tours`, and explanations those of
//! `trip_explain`.
//!
//! The law of `run` is in `specs/`. `Run` says which text is due with each status and what a run promises by its status, over `Meaning` (what
//! any command means), `Outcomes` (how a command is answered, refused or stopped, by its meaning), `Commands` (the meaning of each command, one
//! line a command), `Trips` (the first check that fails), and `Plan`, `Check`, `Bans`, `Latest`, `Batch`, `Gen`, `Tour`, `RestedTour`, `Breaks` and
//! `Explain`, each of which ends with the meaning of its command; `OneText` has the text of a command, which is one over the same files; the
//! files are those of `network_folder`. It is proved on `run`; each other call answers exactly as its definition says, a command's by one
//! clause, `Ends`. `Inside` is no law: it has how a command ends, and the facts that the functions hand to one another. `Words` passes the
//! names of all these on to the contracts.
#![tactic(auto)]

mod bans;
mod batch;
mod batch_trips;
mod breaks;
mod commands;
mod desk;
mod explain;
mod generation;
mod judgement;
mod latest;
mod laws;
mod networks;
mod outcome;
mod plan;
mod requests;
mod rested_tour;
mod shared_nets;
mod tour;

pub use desk::{run, run_gated};
pub use latest::LONGEST_LATE_HORIZON;
pub use laws::{
    explanations_are_exact, limits_are_these, one_text, some_routes, written_certificates_are_good,
};
