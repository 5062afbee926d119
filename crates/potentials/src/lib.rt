//! The least minutes and, by itself, the least cost from each node of a net to a goal: the bounds of a search.
//!
//! The law is `AreLeastBounds` of `specs/Sums`: a node has bounds exactly where some walk of arcs leads from it to the goal, and
//! then they are the least sum of minutes and the least sum of costs of such walks. It is proved at `to_goal`, whose clause
//! `AreBoundsTo` also says that such bounds are `AreBounds` of `route_base`, as a search needs them.
//!
//! `to_goal_within` ends its search at a cap, for many short trips over a large net: each bound is the lesser of the least sum and the
//! cap (`AreCappedBoundsTo`), and such bounds are `AreBounds` too. `cap_for_minutes` makes the cap from a trip's minutes.
//!
//! `BoundedSearch` is the trait of engines that take bounds, and `WithoutBounds` lets an engine without them be one.
//!
//! The least sums are found by a search from the goal over the arcs backwards, in the order of rising sums (`sums`; Dijkstra's
//! algorithm). It is written once for any queue: minutes are searched with buckets, or with a heap where sums may lie far apart,
//! and costs with a heap (`searches`). Where every cost is in proportion to the minutes of its arc (`proportion`), the least costs
//! are those of the least minutes; otherwise they are found by a search of their own. A search keeps the sums below its cap; that
//! of `to_goal` is above all sums. `bounds` puts both together. `specs/Inside` is no law: it says what the search keeps.
#![tactic(auto)]

mod bounded_search;
mod bounds;
mod proportion;
mod searches;
mod sums;

pub use bounded_search::{BoundedSearch, WithoutBounds};
pub use bounds::{cap_for_minutes, minutes_within, to_goal, to_goal_over, to_goal_within};
pub use proportion::has_proportional_costs;
