// Where one line crosses another.
ghost use Rattle.std.specs.Prelude.{◌+◌, ◌*◌, ◌≤◌, ℕ};

/// The number of minutes, at most `most`, for which a line of this slope stays within `slack` of a line of the slope `other`
/// above or below it: for x minutes, where `slope * x <= slack + other * x`. In constant time.
pub fn held_for(slack: u64, slope: u64, other: u64, most: u64) -> u64
    ensures most { result ≤ most }
    ensures held { (x : ℕ) → x ≤ result → slope * x ≤ slack + other * x }
    ensures longest { (x : ℕ) → x ≤ most → slope * x ≤ slack + other * x → x ≤ result }
{
    if slope <= other {
        most
    } else {
        most.min(slack / (slope - other))
    }
}
