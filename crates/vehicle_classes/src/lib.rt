//! Vehicles: the classes that traffic rules speak of, and the table that lists vehicles by name (csv, RFC 4180).
//!
//! A rule names a key of OpenStreetMap's access tags, and a vehicle goes by the keys of its class, from `access` for all to
//! the key of its own kind. A limit names a quantity, such as the height, and a vehicle has a size for each quantity that is
//! known of it.
//!
//! The law is in `specs/`: `Classes` (the keys of each class) is met by `chain_at`; `Keys` (all keys, and the word of each) by
//! `key_label` and `read_key`, which agree (`key_labels_are_read`); `VehicleModel` (a vehicle's class, purpose, sizes and
//! flags) by the calls of `Vehicle`; and `Vehicles` (the table `vehicles.csv`: which vehicle a row states, its schema over
//! `Schema` of `table_reader`, and the vehicle `any` in front) by `read_vehicles` and the calls of `Vehicles`. `VehicleParts`
//! is no law: it says how vehicles are held.
#![tactic(auto)]

mod classes;
mod keys;
mod laws;
mod rows;
mod table;
mod threads;
mod vehicle;

pub use classes::{Class, Key, Purpose, Quantity, chain_at};
pub use keys::{EVERY_KEY, key_label, read_key};
pub use laws::key_labels_are_read;
pub use table::{Vehicles, read_vehicles};
pub use vehicle::Vehicle;
