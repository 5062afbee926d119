// The legs over states as legs of a tour.
ghost use Rattle.std.specs.Prelude.{◌≡◌, ◌≤◌, ◌++◌, All, IfOk, OnOk, length, replicate};
ghost use Rattle.rested_tours.specs.Words.{AreTellable, AreTourLegs, HasTourRoom, IsLegNumbered, IsServiceNumbered, IsTidyTour, told_by};
ghost use Rattle.route_base.specs.Itinerary.{wait};
ghost use Rattle.stop_tour.specs.Tours.{go, tour_steps_of};

use route_base::OutOfMemory;
use ruled_search::RuledLeg;
use std::alloc::Global;
use stop_tour::TourLeg;

// The number of a leg is of 64 bits.
fn leg_is_numbered(leg: RuledLeg)
    ensures { IsLegNumbered leg }
{
    match leg {
        RuledLeg::Drive(a) => {
            let _number = a.0;
        }
        RuledLeg::Rest(_place) => {}
        RuledLeg::Wait(_minutes) => {}
        RuledLeg::Serve(_place) => {}
    }
}

/// The law that the numbers of legs are of 64 bits. The call only reads.
pub fn legs_are_numbered(legs: &[RuledLeg])
    ensures { All IsLegNumbered legs.now }
{
    for leg in legs {
        leg_is_numbered(*leg);
    }
}

/// The legs of a tour that tell the same steps: a rest is a wait of these minutes, and neighbouring waits are joined. Linear in the legs.
pub fn tour_legs(alloc: Global, rest: u64, legs: &[RuledLeg]) -> Result<Vec<TourLeg>, OutOfMemory>
    requires { AreTellable rest legs.now }
    ensures { IfOk result (λ out. AreTourLegs rest legs.now out.items) }
{
    let mut out = Vec::new(alloc);
    for leg in legs {
        push_told(&mut out, rest, *leg)?;
    }
    Ok(out)
}

// Adds at the end what a leg tells.
fn push_told(tour: &mut Vec<TourLeg>, rest: u64, leg: RuledLeg) -> Result<(), OutOfMemory>
    requires some { 1 ≤ rest }
    requires stop { IsServiceNumbered leg }
    requires room { HasTourRoom tour.old.items (length (told_by rest leg)) }
    ensures tidy { OnOk result (IsTidyTour tour.new.items) }
    ensures steps { OnOk result
        (tour_steps_of tour.new.items ≡ tour_steps_of tour.old.items ++ told_by rest leg) }
{
    match leg {
        RuledLeg::Drive(a) => {
            tour.push(TourLeg::Drive(a))?;
            Ok(())
        }
        RuledLeg::Rest(_) => push_wait(tour, rest),
        RuledLeg::Wait(0) => Ok(()),
        RuledLeg::Wait(minutes) => push_wait(tour, minutes),
        RuledLeg::Serve(place) => {
            tour.push(TourLeg::Serve(place as u32 + 1))?;
            Ok(())
        }
    }
}

// Adds a wait at the end; it joins a wait before it.
fn push_wait(tour: &mut Vec<TourLeg>, more: u64) -> Result<(), OutOfMemory>
    requires some { 1 ≤ more }
    requires room { HasTourRoom tour.old.items more }
    ensures tidy { OnOk result (IsTidyTour tour.new.items) }
    ensures steps { OnOk result
        (tour_steps_of tour.new.items ≡ tour_steps_of tour.old.items ++ replicate more (go wait)) }
{
    match tour.pop() {
        None => {
            tour.push(TourLeg::Wait(more))?;
        }
        Some(TourLeg::Wait(minutes)) => {
            tour.push(TourLeg::Wait(minutes + more))?;
        }
        Some(TourLeg::Drive(a)) => {
            tour.push(TourLeg::Drive(a))?;
            tour.push(TourLeg::Wait(more))?;
        }
        Some(TourLeg::Serve(i)) => {
            tour.push(TourLeg::Serve(i))?;
            tour.push(TourLeg::Wait(more))?;
        }
    }
    Ok(())
}
