// The ruler of a trip that serves stops in their order and keeps another ruler's rules.
ghost use Rattle.std.specs.Prelude.{◌≡◌, ◌/◌, ◌%◌, ◌<◌, ⊤, length, map};
ghost use Rattle.ruled_states.specs.Inside.Services.{service_at};
ghost use Rattle.state_dominance.specs.Serving.{IsFirstBest, HasSmallStates, joint, served_limit, serving};
ghost use Rattle.state_dominance.proofs.Served.{made_simulates, made_fits, made_staged, made_best};

use crate::rulers::{Ruler, Service};
use std::alloc::AllocError;

/// Services, which are served in their order, beside rules that a service doesn't touch. The state is that of the rules with the number of
/// services so far. There are fewer than 2^32 of them, and the rules have fewer than 2^32 states.
pub struct Serving<'a, R: Ruler> {
    pub rules: &'a R,
    pub services: &'a [Service],
    pub ghost small: { HasSmallStates (R.ruling rules.now) },
    pub ghost first: { IsFirstBest (R.ruling rules.now) },
    pub ghost few: { length services.now < served_limit },
}

impl<R: Ruler> Clone for Serving<'_, R> {
    ghost is_clone = { λ it copy. copy ≡ it };

    ghost is_infallible = { λ it. ⊤ };

    fn clone(&self) -> Result<Self, AllocError> {
        Ok(*self)
    }
}

impl<R: Ruler> Copy for Serving<'_, R> {}

const SERVED_LIMIT: u64 = 1 << 32;

// The number of a state of the rules with so many services.
#[inline(always)]
fn with_served(state: u64, served: u64) -> u64
    requires state { state < served_limit }
    requires served { served < served_limit }
    ensures { result ≡ joint state served }
{
    state * SERVED_LIMIT + served
}

// The state of the rules in a number.
#[inline(always)]
fn state_of(number: u64) -> u64
    ensures state { result ≡ number / served_limit }
    ensures small { result < served_limit }
{
    number / SERVED_LIMIT
}

// The services in a number.
#[inline(always)]
fn served_of(number: u64) -> u64
    ensures served { result ≡ number % served_limit }
    ensures small { result < served_limit }
{
    number % SERVED_LIMIT
}

impl<R: Ruler> Ruler for Serving<'_, R> {
    ghost ruling = { λ x. serving (map service_at x.services.now) (R.ruling x.rules.now) };

    #[inline(always)]
    fn first(&self) -> u64 {
        with_served(self.rules.first(), 0)
    }

    #[inline(always)]
    fn drive(&self, state: u64, minutes: u64) -> Option<u64> {
        let driven = self.rules.drive(state_of(state), minutes)?;
        Some(with_served(driven, served_of(state)))
    }

    #[inline(always)]
    fn rest(&self, state: u64, minutes: u64) -> u64 {
        with_served(self.rules.rest(state_of(state), minutes), served_of(state))
    }

    #[inline(always)]
    fn rests(&self) -> &[u64] {
        self.rules.rests()
    }

    #[inline(always)]
    fn is_no_worse(&self, state: u64, other: u64) -> bool {
        served_of(state) == served_of(other)
            && self.rules.is_no_worse(state_of(state), state_of(other))
    }

    #[inline(always)]
    fn fits(&self, state: u64, need: u64) -> bool {
        served_of(state) == served_of(need) && self.rules.fits(state_of(state), state_of(need))
    }

    #[inline(always)]
    fn last(&self) -> u64 {
        with_served(self.rules.last(), self.service_count())
    }

    #[inline(always)]
    fn service_count(&self) -> u64 {
        self.services.len() as u64
    }

    #[inline(always)]
    fn service(&self, place: u64) -> Option<Service> {
        self.services.get(place as usize).copied()
    }

    #[inline(always)]
    fn serve(&self, state: u64, place: u64) -> Option<u64> {
        if place < self.service_count() && served_of(state) == place {
            Some(with_served(state_of(state), place + 1))
        } else {
            None
        }
    }

    #[inline(always)]
    fn ends(&self, state: u64) -> bool {
        served_of(state) == self.service_count() && self.rules.ends(state_of(state))
    }

    #[inline(always)]
    fn unserve(&self, need: u64, place: u64) -> Option<u64> {
        if place < self.service_count() && served_of(need) == place + 1 {
            Some(with_served(state_of(need), place))
        } else {
            None
        }
    }

    #[inline(always)]
    fn stage(&self, state: u64) -> u64 {
        served_of(state)
    }

    #[inline(always)]
    fn best(&self, stage: u64) -> u64 {
        with_served(self.rules.first(), stage)
    }

    #[inline(always)]
    fn fits_all(&self, need: u64) -> bool {
        self.rules.fits_all(state_of(need))
    }

    #[inline(always)]
    fn drives_tire(&self) {
        self.rules.drives_tire();
    }

    ghost simulates = { λ x. made_simulates service_at x.services.now (R.ruling x.rules.now) x.few (R.simulates x.rules.now) };

    ghost fitting = { λ x. made_fits service_at x.services.now (R.ruling x.rules.now) x.few (R.fitting x.rules.now) };

    ghost staged = { λ x. made_staged service_at x.services.now (R.ruling x.rules.now) x.few };

    ghost bests = { λ x. made_best service_at x.services.now (R.ruling x.rules.now) x.few x.first };
}
