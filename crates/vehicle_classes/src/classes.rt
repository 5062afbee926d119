// Classes of vehicles, the keys of rules, and the quantities that rules limit.
ghost use Rattle.std.specs.Prelude.{◌≡◌, slice_get};
ghost use Rattle.vehicle_classes.specs.Classes.{keys_of};

/// The class of a vehicle.
#[derive(Clone, Copy, Debug, PartialEq, Eq)]
pub enum Class {
    Hgv,
    HgvArticulated,
    Goods,
    Bus,
}

/// A key of rules, which speaks of the vehicles of one class or of several.
#[derive(Clone, Copy, Debug, PartialEq, Eq, Hash)]
pub enum Key {
    Access,
    Vehicle,
    MotorVehicle,
    Hgv,
    HgvArticulated,
    Goods,
    Bus,
}

/// The purpose of a trip: to pass through, or to deliver.
#[derive(Clone, Copy, Debug, PartialEq, Eq)]
pub enum Purpose {
    Through,
    Delivery,
}

/// A quantity by which rules limit vehicles: weights in kilograms, lengths in centimetres, and the number of axles.
#[derive(Clone, Copy, Debug, PartialEq, Eq)]
pub enum Quantity {
    Weight,
    Axleload,
    Height,
    Width,
    Length,
    Axles,
}

/// The key at place k from 0 of those that the class goes by, from general to special; `None` exactly past the last. In
/// constant time.
pub fn chain_at(class: Class, k: usize) -> Option<Key>
    ensures { result ≡ slice_get (keys_of class) k }
{
    let keys: &[Key] = match class {
        Class::Hgv => &[Key::Access, Key::Vehicle, Key::MotorVehicle, Key::Hgv],
        Class::HgvArticulated => &[
            Key::Access,
            Key::Vehicle,
            Key::MotorVehicle,
            Key::Hgv,
            Key::HgvArticulated,
        ],
        Class::Goods => &[Key::Access, Key::Vehicle, Key::MotorVehicle, Key::Goods],
        Class::Bus => &[Key::Access, Key::Vehicle, Key::MotorVehicle, Key::Bus],
    };
    keys.get(k).copied()
}
