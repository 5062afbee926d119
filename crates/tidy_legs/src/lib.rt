//! Legs that are put together one by one, without empty waits and without neighbouring waits.
//!
//! The law is `specs/Tidiness`: what tidy legs are, and `push_leg` keeps them so. The steps of legs are those of the base (`steps_of`).
//! `proofs/TurnedLegs` shows that legs in the other order have the steps in the other order and are as tidy, for searches that find
//! the last leg first.
#![tactic(auto)]

mod legs;

pub use legs::push_leg;
