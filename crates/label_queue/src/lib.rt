//! Priority queues of nodes: at most one key for each node from 1 to n, and a node with the least key comes out first.
//!
//! Contracts see the list of keys, with a place for each node. The law is in `specs/Keys`: `key_at` reads the key of a node,
//! `IsSet` says that one node's key changes and no other, and `IsLeastTaken` that a node with the least key loses it, the smallest of
//! them at equal keys; `IsOneOfLeastTaken` says the same of any of them. It is proved at the methods of both queues.
//!
//! `LabelQueue` takes any keys. They are in an indexed binary heap (`heap`): labels, each with a key and its node, in a list in which
//! none comes after the two below it, and beside it the place of each node's label. A key that is put or lowered moves up from its place,
//! and when the root is taken out the last label moves down from there. Each moves through a hole, so that a level costs one label and
//! one place. All memory is reserved by `new`, and a label is written only where one comes.
//!
//! `BucketQueue` takes keys that rise (`specs/Rising`): none is less than the last that was taken, the floor, or greater than it by a
//! span or more, which is fixed. They are in a circular list of buckets (`ring`), one for each key that can be, so that each call but
//! `take_least` takes constant time. A key that is lowered leaves its entry in the bucket of the old key; `take_least` drops such entries,
//! which it knows by the list of the nodes' keys (`node_keys`). A bucket that is emptied keeps its memory.
//!
//! `NodeQueue` is the trait of both, for a search over either. `specs/Inside` is no law: it says what the heap and the buckets keep.
#![tactic(auto)]

mod buckets;
mod heap;
mod node_keys;
mod node_queue;
mod queue;
mod ring;

pub use buckets::BucketQueue;
pub use node_queue::NodeQueue;
pub use queue::LabelQueue;
