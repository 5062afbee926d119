//! Makes the certificate of a request: whoever distrusts the search hands it to the checker.
//!
//! `certify` searches once. The certificate's routes are those of the pairs that were found, each with the legs of its
//! itinerary; its bounds are the least minutes and costs to the goal, and its functions are those of the search, moved and not
//! copied. Nodes from which the goal can't be reached have no bounds, and nodes without a value have no function.
//!
//! The law is in four clauses of `certify`. `right`: the pairs are the Pareto front, and the legs of each are lawful (`IsRight`
//! of `route_base`). `good`: the checker accepts the certificate (`IsGood` of `certificate_check`). `tight`: nothing in it is
//! larger than it has to be (`IsTight` of `specs/Tight`): the bounds are exactly the least, functions are reduced, each of
//! their values is the cost of lawful steps from the start, and from there the goal is in reach by the horizon. `writable`: it
//! has a text (`IsWritable` of `certificate`) if no road costs more than 10,180.000, the longest drive and the highest toll
//! (`HasCheapRoads` of `specs/CheapRoads`). The law `certificates_agree` takes tightness and cheap roads from a net to the
//! setting that the net stands for.
//!
//! The search promises the six conditions of the checker already (`IsFoundFor` of `propagation`), over lists with a place for
//! each node. `bounds` and `functions` make entries by rising node of them that say the same (`AreEntriesOf` of `specs/Inside`,
//! which is no law), and `proofs/FoundEntries` carries the conditions over. `proofs/LeastSums` shows that the bounds are within the
//! ranges of the format: least minutes fall along a least walk, so no node comes twice.
#![tactic(auto)]

mod bounds;
mod certifier;
mod functions;
mod laws;

pub use certifier::certify;
pub use laws::certificates_agree;
