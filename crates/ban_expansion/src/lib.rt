//! Bans as sets of closed minutes: the minutes of a window at which an arc of a network is closed to a vehicle, and the net
//! over which trips of the vehicle are planned.
//!
//! The law of closed arcs is in `network_tables`: `Access` says which access an arc gives a vehicle at an instant, and when it is
//! closed to it. `closed_at` of `road_access`, passed on here, meets it for one instant, `closed_set` for all minutes of a window at
//! once, and `expand_plain` makes a net of all arcs that stands for `road_setting` within the window.
//!
//! Arcs of one area with the same closures and the same rules of their own, or none of these, share a set; but where no arc of the
//! network has rules of its own, an arc with one or two closures has a set to itself. Arcs of one area without rules of their own share
//! its barred minutes (`area_bans`). `arc_digests` finds arcs that may be alike, and `arc_comparison` compares them exactly. The
//! grouping serves all vehicles and windows: `group_arcs` finds it once for a network, and `expand_groups` makes the net of a vehicle
//! and a window over these groups. Where many nets of one network are made, call these two in place of `expand_plain`; threads may
//! share the groups. `expand` is `expand_plain` on several workers. Parks with the same hours in one area share their shut minutes
//! (`shut_lists`), and `wait_open_at` says for one instant whether a park is open. `ArcGroups` is the law of groups: to every vehicle,
//! an arc is closed at exactly the minutes at which the first arc of its group is.
//!
//! The law of the parts is in `specs/`. `Layers` says what layers of minutes give: the last layer that has a minute decides whether
//! it is closed. `overlaid` and `closed_by` meet this, and `common` has the minutes of all sets. The law `last_of_all` says that
//! lists of clauses, one after another, may be taken as one list. `Bans` says when a set has exactly those minutes of a window
//! that pass a test (`HasThose`): the set of `closed_set` has those at which the arc is closed; and when a net is shut at exactly
//! these minutes (`IsShutWithin`), its roads as well as its places to wait, as those of `expand_plain` are.
//!
//! The other definitions are machinery. `Bans` says too what it is to lay the values of rules over minutes that are closed so far,
//! from general to special, as `closed_sets` does in the `Circumstances` of a vehicle; the minutes of hours come from
//! `covered_minutes`. `Inside` says how arcs are grouped and timed.
#![tactic(auto)]

mod arc_comparison;
mod arc_digests;
mod arc_groups;
mod area_bans;
mod circumstances;
mod closed_lists;
mod closed_sets;
mod expansion;
mod grouping;
mod laws;
mod layers;
mod shut_lists;
mod threads;

pub use arc_groups::ArcGroups;
pub use closed_sets::closed_set;
pub use expansion::{expand, expand_groups, expand_plain};
pub use grouping::group_arcs;
pub use laws::last_of_all;
pub use layers::{Layer, closed_by, common, overlaid};
pub use road_access::closed_at;
pub use shut_lists::wait_open_at;
