// Splits bytes at the first mark.
ghost use Rattle.std.specs.Prelude.{◌≡◌, ◌<◌, ◌∷◌, ◌==◌, [], IfSome, IfNone, length};
ghost use Rattle.std.specs.List.{slice_split, position};

/// The bytes before the first byte `mark` and the bytes after it; `None` exactly where there is no such byte. Linear in the
/// bytes before it.
pub fn cut(bytes: &[u8], mark: u8) -> Option<(&[u8], &[u8])>
    ensures parts { IfSome result (λ p.
        slice_split (λ b. b == mark) bytes.now ≡ p.0.now ∷ slice_split (λ b. b == mark) p.1.now) }
    ensures less { IfSome result (λ p. length p.1.now < length bytes.now) }
    ensures none { IfNone result (slice_split (λ b. b == mark) bytes.now ≡ bytes.now ∷ []) }
{
    let place = place_of(bytes, mark)?;
    Some((&bytes[..place], &bytes[place + 1..]))
}

// The place of the first byte `mark`.
fn place_of(bytes: &[u8], mark: u8) -> Option<usize>
    ensures { result ≡ position (λ b. b == mark) bytes.now }
{
    bytes.iter().position(|b| *b == mark)
}
