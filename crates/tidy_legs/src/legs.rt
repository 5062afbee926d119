// Puts legs together one by one.
ghost use Rattle.std.specs.Prelude.{◌≡◌, ◌≢◌, ◌≤◌, ◌++◌, ℕ, length, take, OnOk, OnErr};
ghost use Rattle.route_base.specs.declared.types.Leg.TheVariants.{Wait};
ghost use Rattle.tidy_legs.specs.Words.{steps_of, steps_of_leg, IsTidy, HasRoom};

use route_base::Leg;
use std::alloc::AllocError;

/// Adds a leg at the end, in constant time on average; a wait after a wait joins it. Out of memory leaves a prefix of the legs.
pub fn push_leg(legs: &mut Vec<Leg>, leg: Leg) -> Result<(), AllocError>
    requires some { leg ≢ Leg.Wait 0 }
    requires room { HasRoom legs.old.items (length (steps_of_leg leg)) }
    ensures prefix { OnErr result ((n : ℕ) × (legs.new.items ≡ take n legs.old.items)) }
    ensures tidy { OnOk result (IsTidy legs.new.items) }
    ensures steps { OnOk result
        (steps_of legs.new.items ≡ steps_of legs.old.items ++ steps_of_leg leg) }
{
    match leg {
        Leg::Drive(a) => {
            legs.push(Leg::Drive(a))?;
            Ok(())
        }
        Leg::Wait(more) => push_wait(legs, more),
    }
}

// Adds a wait at the end; it joins a wait before it.
fn push_wait(legs: &mut Vec<Leg>, more: u64) -> Result<(), AllocError>
    requires some { 1 ≤ more }
    requires room { HasRoom legs.old.items more }
    ensures prefix { OnErr result ((n : ℕ) × (legs.new.items ≡ take n legs.old.items)) }
    ensures tidy { OnOk result (IsTidy legs.new.items) }
    ensures steps { OnOk result
        (steps_of legs.new.items ≡ steps_of legs.old.items ++ steps_of_leg (Leg.Wait more)) }
{
    match legs.pop() {
        None => {
            legs.push(Leg::Wait(more))?;
        }
        Some(Leg::Wait(minutes)) => {
            legs.push(Leg::Wait(minutes + more))?;
        }
        Some(Leg::Drive(a)) => {
            legs.push(Leg::Drive(a))?;
            legs.push(Leg::Wait(more))?;
        }
    }
    Ok(())
}
