// The keys of rules, and the words by which a table of rules names them.
ghost use Rattle.std.specs.Prelude.{◌≡◌};
ghost use Rattle.vehicle_classes.specs.Keys.{key_label_of, key_of};

use crate::classes::Key;

/// All keys, from general to special.
pub const EVERY_KEY: [Key; 7] = [
    Key::Access,
    Key::Vehicle,
    Key::MotorVehicle,
    Key::Hgv,
    Key::HgvArticulated,
    Key::Goods,
    Key::Bus,
];

/// The word of the key. In constant time.
pub fn key_label(key: Key) -> &'static str
    ensures { result.now ≡ key_label_of key }
{
    match key {
        Key::Access => "access",
        Key::Vehicle => "vehicle",
        Key::MotorVehicle => "motor_vehicle",
        Key::Hgv => "hgv",
        Key::HgvArticulated => "hgv_articulated",
        Key::Goods => "goods",
        Key::Bus => "bus",
    }
}

/// The key of a word; `None` exactly where no key has this word. In constant time.
#[tactic(auto, unfolding(crate::specs::Keys::key_of))]
pub fn read_key(word: &[u8]) -> Option<Key>
    ensures { result ≡ key_of word.now }
{
    EVERY_KEY
        .iter()
        .copied()
        .find(|key| word == key_label(*key).as_bytes())
}
