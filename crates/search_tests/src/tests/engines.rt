// Both engines on worked nets and on random ones.
pub mod fronts;
pub mod nets;
pub mod random_nets;
mod worked;
