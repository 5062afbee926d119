// The keys for which single arcs have rules of their own, so that arcs without such rules take no look-up.
ghost use Rattle.std.specs.Prelude.{◌≡◌, ◌+◌, ◌<◌, ◌||◌, ◌++◌, ◌∷◌, ℕ, [], List, OnOk, length};
ghost use Rattle.std.specs.List.{list_any};
ghost use Rattle.vehicle_classes.specs.Keys.{every_key};
ghost use Rattle.vehicle_classes.specs.declared.classes.Key.{Key};
ghost use Rattle.network_tables.specs.OwnKeys.{AreOwnKeys, HasRoom, has_key, keys_at, no_keys};
ghost use Rattle.network_tables.specs.Rules.{Rule, is_same_key};
ghost use Rattle.network_tables.specs.declared.rules.value.RuleValue.{RuleValue};

use super::place::{RulePlace, Scope};
use route_base::OutOfMemory;
use vehicle_classes::Key;

/// Keys: those for which one arc has rules of its own.
#[derive(Clone, Copy)]
pub struct OwnKeys {
    pub access: bool,
    pub vehicle: bool,
    pub motor_vehicle: bool,
    pub hgv: bool,
    pub hgv_articulated: bool,
    pub goods: bool,
    pub bus: bool,
}

impl OwnKeys {
    // No keys.
    fn none() -> OwnKeys
        ensures { result ≡ no_keys }
    {
        OwnKeys {
            access: false,
            vehicle: false,
            motor_vehicle: false,
            hgv: false,
            hgv_articulated: false,
            goods: false,
            bus: false,
        }
    }

    /// Whether the key is one of them.
    pub fn has(self, key: Key) -> bool
        ensures { result ≡ has_key self key }
    {
        match key {
            Key::Access => self.access,
            Key::Vehicle => self.vehicle,
            Key::MotorVehicle => self.motor_vehicle,
            Key::Hgv => self.hgv,
            Key::HgvArticulated => self.hgv_articulated,
            Key::Goods => self.goods,
            Key::Bus => self.bus,
        }
    }

    /// Whether there are any.
    pub fn has_any(self) -> bool
        ensures { result ≡ list_any (has_key self) every_key }
    {
        self.access
            || self.vehicle
            || self.motor_vehicle
            || self.hgv
            || self.hgv_articulated
            || self.goods
            || self.bus
    }

    // These keys and one more.
    fn with(self, key: Key) -> OwnKeys
        ensures { (other : Key) →
            has_key result other ≡ (has_key self other || is_same_key other key) }
    {
        let mut keys = self;
        match key {
            Key::Access => keys.access = true,
            Key::Vehicle => keys.vehicle = true,
            Key::MotorVehicle => keys.motor_vehicle = true,
            Key::Hgv => keys.hgv = true,
            Key::HgvArticulated => keys.hgv_articulated = true,
            Key::Goods => keys.goods = true,
            Key::Bus => keys.bus = true,
        }
        keys
    }
}

/// The keys of the arc of this number, and none after the end. In constant time.
#[inline(always)]
pub fn keys_of(own: &[OwnKeys], a: u32) -> OwnKeys
    ensures { result ≡ keys_at own.now a }
{
    let place = a as usize;
    if place < own.len() {
        own[place]
    } else {
        OwnKeys::none()
    }
}

// Lengthens the list to the arc of this number.
fn lengthen(own: &mut Vec<OwnKeys>, a: u32) -> Result<(), OutOfMemory>
    ensures same { (b : ℕ) → keys_at own.new.items b ≡ keys_at own.old.items b }
    ensures within { OnOk result (a < length own.new.items) }
{
    'arcs: while own.len() <= a as usize {
        own.push(OwnKeys::none())?;
    }
    Ok(())
}

/// Makes room for the key of a place. Linear in the number of its arc, if that is after the end. The only error is out of memory.
pub fn make_room(own: &mut Vec<OwnKeys>, scope: Scope) -> Result<(), OutOfMemory>
    ensures same { (b : ℕ) → keys_at own.new.items b ≡ keys_at own.old.items b }
    ensures room { OnOk result (HasRoom own.new.items scope) }
{
    match scope {
        Scope::Area(_place) => Ok(()),
        Scope::Arc(number) => lengthen(own, number),
    }
}

/// Adds the key of a rule at this place. In constant time.
pub fn add_key(own: &mut Vec<OwnKeys>, place: RulePlace)
    requires { HasRoom own.old.items place.scope }
    ensures { (rules : List Rule) (value : RuleValue) → AreOwnKeys own.old.items rules
        → AreOwnKeys own.new.items (rules ++ (place, value) ∷ []) }
{
    match place.scope {
        Scope::Area(_place) => {}
        Scope::Arc(number) => {
            own[number as usize] = own[number as usize].with(place.key);
        }
    }
}
