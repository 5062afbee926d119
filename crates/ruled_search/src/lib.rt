//! The search for trips under rules on the driver, over states that are made when they are reached.
//!
//! It is that of `propagation`, for nodes that are states of a ruler (`ruled_states`): a node with what was driven, or served, so far.
//! A way over states is a drive over an arc, a rest at a rated node, or a service at its node. A state has a cost function of the minute
//! and pending minutes. A turn takes the pieces of a state that begin within an hour of its first pending minute, leaves out what a
//! better state of the node dominates, and makes offers over its rests, its services and its drives. An offer is pruned by the bounds,
//! the borders of the pairs and the latest minute of its state, after which a window is missed, closed under waiting, pruned again and
//! cut by the better states of its node; then its state takes it. Where there are reduced sums, states leave the queue stage by stage, a turn
//! takes all that is pending, and it leaves out what is surpassed too: less is known behind the next stop, however one comes there.
//!
//! The law is `AreRoutesOf` of `specs/Routes` and the front over the states, `IsAchievedIn` of `state_dominance`: both are clauses of
//! `plan_with_bounds`. The facts that the search keeps are `IsSearching` of `state_dominance`, whose laws give each step; `specs/Inside` has
//! how the code holds them.
#![tactic(auto)]

mod back;
mod bounds;
mod charges;
mod laws;
mod moves;
mod offers;
mod order;
mod parts;
mod planning;
mod progress;
mod relaxing;
mod routes;
mod searching;
mod sources;
mod surpassing;
mod taking;
mod task;
mod turns;
mod ways;

pub use laws::ruled_costs_fit;
pub use planning::plan_with_bounds;
pub use routes::{RuledLeg, RuledRoute};
