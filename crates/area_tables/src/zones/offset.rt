// Offsets from UTC as texts.
ghost use Rattle.std.specs.Prelude.{◌≡◌, ◌≤◌, IfSome, IsTrue};
ghost use Rattle.zone_rules.specs.Zones.{is_offset};
ghost use Rattle.area_tables.specs.Zones.{span_of, signed_of, offset_of};

use route_base::read_number;

// Hours and minutes, at most 18 hours in all, as minutes.
fn span_in_minutes(hours: u64, minutes: u64) -> Option<u64>
    ensures value { result ≡ span_of hours minutes }
    ensures small { IfSome result (λ n. n ≤ 1080) }
{
    if hours > 18 || minutes > 59 || 60 * hours + minutes > 1080 {
        return None;
    }
    Some(60 * hours + minutes)
}

// Minutes behind a sign.
fn signed(sign: u8, minutes: u64) -> Option<i64>
    requires { minutes ≤ 1080 }
    ensures value { result ≡ signed_of sign minutes }
    ensures range { IfSome result (λ z. IsTrue (is_offset z)) }
{
    match sign {
        b'+' => Some(minutes as i64),
        b'-' => Some(-(minutes as i64)),
        _ => None,
    }
}

/// The minutes of `+HH:MM` or `-HH:MM`, from -18:00 to +18:00; `None` exactly for other bytes. In constant time.
#[tactic(auto, unfolding(crate::specs::Zones::offset_of))]
pub fn read_offset(bytes: &[u8]) -> Option<i64>
    ensures value { result ≡ offset_of bytes.now }
    ensures range { IfSome result (λ z. IsTrue (is_offset z)) }
{
    match bytes {
        [sign, h1, h0, colon, m1, m0] => {
            if *colon != b':' {
                return None;
            }
            let hours = read_number(&[*h1, *h0])?;
            let minutes = read_number(&[*m1, *m0])?;
            signed(*sign, span_in_minutes(hours, minutes)?)
        }
        _ => None,
    }
}
