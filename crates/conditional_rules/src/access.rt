// Access: whether a road lets a vehicle in.
ghost use Rattle.std.specs.Prelude.{◌≡◌};
ghost use Rattle.conditional_rules.specs.Accesses.{is_among, free_words, barred_words, purpose_words, access_of};
ghost use Rattle.conditional_rules.specs.Accesses.{lets_purpose_in};

use vehicle_classes::{Purpose, Vehicle};

/// Whether a road lets a vehicle in: every vehicle, none, or those alone whose purpose is delivery.
#[derive(Clone, Copy, Debug, PartialEq, Eq)]
pub enum Access {
    Free,
    Barred,
    Purpose,
}

// Whether a value lets every vehicle in.
fn is_free(word: &[u8]) -> bool
    ensures { result ≡ is_among free_words word.now }
{
    word == b"yes".as_slice()
        || word == b"designated".as_slice()
        || word == b"permissive".as_slice()
        || word == b"discouraged".as_slice()
}

// Whether a value lets no vehicle in.
fn is_barred(word: &[u8]) -> bool
    ensures { result ≡ is_among barred_words word.now }
{
    word == b"no".as_slice()
        || word == b"private".as_slice()
        || word == b"agricultural".as_slice()
        || word == b"forestry".as_slice()
        || word == b"customers".as_slice()
        || word == b"permit".as_slice()
}

// Whether a value depends on the purpose.
fn is_for_purpose(word: &[u8]) -> bool
    ensures { result ≡ is_among purpose_words word.now }
{
    word == b"destination".as_slice() || word == b"delivery".as_slice()
}

/// The access that a value gives; `None` exactly for a word that is no value of access keys. It takes no memory.
#[tactic(auto, unfolding(crate::specs::Accesses::access_of))]
pub fn read_value(bytes: &[u8]) -> Option<Access>
    ensures { result ≡ access_of bytes.now }
{
    if is_free(bytes) {
        Some(Access::Free)
    } else if is_barred(bytes) {
        Some(Access::Barred)
    } else if is_for_purpose(bytes) {
        Some(Access::Purpose)
    } else {
        None
    }
}

/// Whether the access lets the vehicle in. In constant time.
pub fn lets_in(access: Access, vehicle: &Vehicle) -> bool
    ensures { result ≡ lets_purpose_in access vehicle.now.purpose }
{
    match access {
        Access::Free => true,
        Access::Barred => false,
        Access::Purpose => vehicle.purpose() == Purpose::Delivery,
    }
}
