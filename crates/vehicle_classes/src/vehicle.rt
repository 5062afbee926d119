// A vehicle: its class, its purpose, its sizes and its flags.
ghost use Rattle.std.specs.Prelude.{◌≡◌, ◌≤◌, map, IfSome};
ghost use Rattle.std.specs.List.{list_any};
ghost use Rattle.std.specs.Str.{bytes_eq};
ghost use Rattle.vehicle_classes.specs.VehicleModel.{size_of, has_flag, any_vehicle};
ghost use Rattle.vehicle_classes.specs.VehicleParts.{vehicle_with, AreSmall};

use crate::{Class, Purpose, Quantity};
use route_base::limits::LARGEST_SIZE;
use std::alloc::Global;
use std::marker::Model;

/// A vehicle: its class, its purpose, the sizes that are known, and the words that it is flagged with.
#[derive(Drop)]
pub struct Vehicle {
    class: Class,
    purpose: Purpose,
    sizes: Sizes,
    flags: Vec<Vec<u8>>,
}

/// The sizes of a vehicle in kilograms, centimetres or a count, where they are known.
#[derive(Clone, Copy)]
pub struct Sizes {
    pub weight_kg: Option<u64>,
    pub axleload_kg: Option<u64>,
    pub height_cm: Option<u64>,
    pub width_cm: Option<u64>,
    pub length_cm: Option<u64>,
    pub axles: Option<u64>,
}

impl Model for Vehicle {
    ghost use Rattle.vehicle_classes.specs.VehicleModel.{VehicleModel};
    ghost use Rattle.vehicle_classes.specs.VehicleParts.{vehicle_with, AreSmall};
    ghost use Rattle.std.specs.Prelude.{map};

    ghost Value = { VehicleModel };

    ghost view = { λ v. vehicle_with v.class v.purpose v.sizes (map (λ f. f.items) v.flags.items) };

    ghost invariant = { λ v. AreSmall v.sizes };
}

impl Vehicle {
    /// The vehicle of these parts. In constant time.
    pub fn new(class: Class, purpose: Purpose, sizes: Sizes, flags: Vec<Vec<u8>>) -> Self
        requires { AreSmall sizes }
        ensures { result ≡ vehicle_with class purpose sizes (map (λ f. f.items) flags.items) }
    {
        Vehicle {
            class,
            purpose,
            sizes,
            flags,
        }
    }

    /// The vehicle of which only the class is known: `Hgv`.
    pub fn any(alloc: Global) -> Self
        ensures { result ≡ any_vehicle }
    {
        Vehicle {
            class: Class::Hgv,
            purpose: Purpose::Through,
            sizes: Sizes {
                weight_kg: None,
                axleload_kg: None,
                height_cm: None,
                width_cm: None,
                length_cm: None,
                axles: None,
            },
            flags: Vec::new(alloc),
        }
    }

    /// The class of the vehicle. In constant time.
    pub fn class(&self) -> Class
        ensures { result ≡ self.now.class }
    {
        self.class
    }

    /// The purpose of its trips. In constant time.
    pub fn purpose(&self) -> Purpose
        ensures { result ≡ self.now.purpose }
    {
        self.purpose
    }

    /// A size in kilograms, centimetres or a count, at most 1,000,000; `None` exactly where it isn't known. In constant
    /// time.
    pub fn size(&self, q: Quantity) -> Option<u64>
        ensures value { result ≡ size_of self.now q }
        ensures small { IfSome result (λ n. n ≤ LARGEST_SIZE) }
    {
        match q {
            Quantity::Weight => self.sizes.weight_kg,
            Quantity::Axleload => self.sizes.axleload_kg,
            Quantity::Height => self.sizes.height_cm,
            Quantity::Width => self.sizes.width_cm,
            Quantity::Length => self.sizes.length_cm,
            Quantity::Axles => self.sizes.axles,
        }
    }

    /// Whether the vehicle is flagged with the word. Linear in its flags and in the word.
    pub fn has_flag(&self, word: &[u8]) -> bool
        ensures { result ≡ has_flag self.now word.now }
    {
        is_among(&self.flags, word)
    }
}

// Whether the word is one of these.
fn is_among(flags: &[Vec<u8>], word: &[u8]) -> bool
    ensures { result ≡ list_any (λ flag. bytes_eq word.now flag.items) flags.now }
{
    flags.iter().any(|flag| is_same(word, flag))
}

// Whether the words are the same.
fn is_same(word: &[u8], flag: &[u8]) -> bool
    ensures { result ≡ bytes_eq word.now flag.now }
{
    word == flag
}
