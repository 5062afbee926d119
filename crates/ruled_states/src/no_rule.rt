// The ruler without a rule.
ghost use Rattle.state_dominance.specs.NoRule.{no_rule};
ghost use Rattle.state_dominance.proofs.NotRuled.{simulates, fitting, staged, has_best};

use crate::rulers::{Ruler, Service};

/// No rule: there is one state, each drive is allowed, and no rest matters.
#[derive(Clone, Copy)]
pub struct NoRule {}

impl Ruler for NoRule {
    ghost ruling = { λ x. no_rule };

    #[inline(always)]
    fn first(&self) -> u64 {
        0
    }

    #[inline(always)]
    fn drive(&self, state: u64, minutes: u64) -> Option<u64> {
        Some(0)
    }

    #[inline(always)]
    fn rest(&self, state: u64, minutes: u64) -> u64 {
        0
    }

    #[inline(always)]
    fn rests(&self) -> &[u64] {
        &[]
    }

    #[inline(always)]
    fn is_no_worse(&self, state: u64, other: u64) -> bool {
        state <= other
    }

    #[inline(always)]
    fn fits(&self, state: u64, need: u64) -> bool {
        true
    }

    #[inline(always)]
    fn last(&self) -> u64 {
        0
    }

    #[inline(always)]
    fn service_count(&self) -> u64 {
        0
    }

    #[inline(always)]
    fn service(&self, place: u64) -> Option<Service> {
        None
    }

    #[inline(always)]
    fn serve(&self, state: u64, place: u64) -> Option<u64> {
        None
    }

    #[inline(always)]
    fn ends(&self, state: u64) -> bool {
        true
    }

    #[inline(always)]
    fn unserve(&self, need: u64, place: u64) -> Option<u64> {
        None
    }

    #[inline(always)]
    fn stage(&self, state: u64) -> u64 {
        0
    }

    #[inline(always)]
    fn best(&self, stage: u64) -> u64 {
        0
    }

    #[inline(always)]
    fn fits_all(&self, need: u64) -> bool {
        true
    }

    #[inline(always)]
    fn drives_tire(&self) {}

    ghost simulates = { λ x. simulates };

    ghost fitting = { λ x. fitting };

    ghost staged = { λ x. staged };

    ghost bests = { λ x. has_best };
}
