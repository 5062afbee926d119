// Puts single steps together as legs.
ghost use Rattle.std.specs.Prelude.{◌≡◌, ◌<◌, ◌^◌, length, reverse, All, IfOk};
ghost use Rattle.plain_search.specs.Words.{steps_of, IsSingle, IsTidy};

use route_base::Leg;
use std::alloc::{AllocError, Global};
use tidy_legs::push_leg;

/// Reverses single-step legs and merges neighbouring waits. Linear in their number.
pub fn tidied(alloc: Global, back: &[Leg]) -> Result<Vec<Leg>, AllocError>
    requires single { All IsSingle back.now }
    requires short { length back.now < 2 ^ 62 }
    ensures tidy { IfOk result (λ legs. IsTidy legs.items) }
    ensures steps { IfOk result (λ legs. steps_of legs.items ≡ steps_of (reverse back.now)) }
{
    let mut legs = Vec::new(alloc);
    let mut left = back.len();
    while left > 0 {
        left -= 1;
        push_leg(&mut legs, back[left])?;
    }
    Ok(legs)
}
