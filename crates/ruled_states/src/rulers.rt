// Rulers: what a driver may do after what was done so far.
ghost use Rattle.std.specs.Prelude.{◌≡◌, ◌≤◌, ℕ, true, IsTrue, length, slice_get};
ghost use Rattle.std.specs.Option.{option_map};
ghost use Rattle.ruled_states.specs.Inside.Services.{service_at};
ghost use Rattle.state_dominance.specs.OneRule.{one_rule};
ghost use Rattle.state_dominance.specs.Inside.Product.{Ruler as Ruling, IsSimulating, IsFitting, IsStaged, HasBest};
ghost use Rattle.state_dominance.proofs.OneRuled.{simulates, fitting, staged, has_best};
ghost use Rattle.ruled_states.specs.Inside.Tiring.{DrivesTire};

use route_base::NodeId;
use std::slice;

/// A service at a node, of so many minutes, of which none is before minute `from`, and which end by minute `to`.
#[derive(Clone, Copy)]
pub struct Service {
    pub node: NodeId,
    pub minutes: u64,
    pub from: u64,
    pub to: u64,
}

/// The states of a driver by number. What a drive or an unbroken wait leads to, which states are no worse than which, and after which
/// states a need fits: the state from which the same drives, taken backwards, lead to the goal or to a rest.
pub trait Ruler {
    ghost ruling: { Self → Ruling };

    /// The state at the start.
    fn first(&self) -> u64
        ensures { result ≡ (ruling self.now).first };

    /// The state after a drive of these minutes; none where it is forbidden.
    fn drive(&self, state: u64, minutes: u64) -> Option<u64>
        ensures { result ≡ (ruling self.now).drive state minutes };

    /// The state after an unbroken wait of these minutes.
    fn rest(&self, state: u64, minutes: u64) -> u64
        ensures { result ≡ (ruling self.now).rest state minutes };

    /// The minutes of the waits that matter.
    fn rests(&self) -> &[u64]
        ensures { result.now ≡ (ruling self.now).rests };

    /// Whether whatever the other state allows, this one allows too.
    fn is_no_worse(&self, state: u64, other: u64) -> bool
        ensures { result ≡ (ruling self.now).no_worse state other };

    /// Whether what is needed is allowed in the state.
    fn fits(&self, state: u64, need: u64) -> bool
        ensures { result ≡ (ruling self.now).fits state need };

    /// The need at the goal.
    fn last(&self) -> u64
        ensures { result ≡ (ruling self.now).last };

    /// The number of services.
    fn service_count(&self) -> u64
        ensures { result ≡ length (ruling self.now).services };

    /// The service at a place, if there is one.
    fn service(&self, place: u64) -> Option<Service>
        ensures { option_map service_at result ≡ slice_get (ruling self.now).services place };

    /// The state after the service at a place; none where it is forbidden.
    fn serve(&self, state: u64, place: u64) -> Option<u64>
        ensures { result ≡ (ruling self.now).serve state place };

    /// Whether a trip may end in the state.
    fn ends(&self, state: u64) -> bool
        ensures { result ≡ (ruling self.now).ends state };

    /// What a need becomes when the service at a place is taken backwards; none where it can't be.
    fn unserve(&self, need: u64, place: u64) -> Option<u64>
        ensures { result ≡ (ruling self.now).unserve need place };

    /// The number of services that were done in the state.
    fn stage(&self, state: u64) -> u64
        ensures { result ≡ (ruling self.now).stage state };

    /// The state after so many services that is no worse than any other.
    fn best(&self, stage: u64) -> u64
        requires { stage ≤ length (ruling self.now).services }
        ensures { result ≡ (ruling self.now).best stage };

    /// Whether the need is sure to fit after each state of its stage.
    fn fits_all(&self, need: u64) -> bool
        ensures { IsTrue result → (k : ℕ) → (ruling self.now).stage k ≡ (ruling self.now).stage need
            → (ruling self.now).fits k need ≡ true };

    /// The law that drives tire: a need that fits after a drive fits before it. The call does nothing.
    fn drives_tire(&self)
        ensures { DrivesTire (ruling self.now) };

    ghost simulates: { (x : Self) → IsSimulating (ruling x) };

    ghost fitting: { (x : Self) → IsFitting (ruling x) };

    ghost staged: { (x : Self) → IsStaged (ruling x) };

    ghost bests: { (x : Self) → HasBest (ruling x) };
}

/// One rule, at most so many minutes of driving since the last unbroken wait of so many: the state is the minutes driven since then.
#[derive(Clone, Copy)]
pub struct OneRule {
    pub drive: u64,
    pub rest: u64,
}

impl Ruler for OneRule {
    ghost ruling = { λ x. one_rule x.drive x.rest };

    #[inline(always)]
    fn first(&self) -> u64 {
        0
    }

    #[inline(always)]
    fn drive(&self, state: u64, minutes: u64) -> Option<u64> {
        within(self.drive, state, minutes)
    }

    #[inline(always)]
    fn rest(&self, state: u64, minutes: u64) -> u64 {
        if self.rest <= minutes { 0 } else { state }
    }

    #[inline(always)]
    fn rests(&self) -> &[u64] {
        slice::from_ref(&self.rest)
    }

    #[inline(always)]
    fn is_no_worse(&self, state: u64, other: u64) -> bool {
        state <= other
    }

    #[inline(always)]
    fn fits(&self, state: u64, need: u64) -> bool {
        need == 0 || within(self.drive, state, need).is_some()
    }

    #[inline(always)]
    fn last(&self) -> u64 {
        0
    }

    #[inline(always)]
    fn service_count(&self) -> u64 {
        0
    }

    #[inline(always)]
    fn service(&self, place: u64) -> Option<Service> {
        None
    }

    #[inline(always)]
    fn serve(&self, state: u64, place: u64) -> Option<u64> {
        None
    }

    #[inline(always)]
    fn ends(&self, state: u64) -> bool {
        true
    }

    #[inline(always)]
    fn unserve(&self, need: u64, place: u64) -> Option<u64> {
        None
    }

    #[inline(always)]
    fn stage(&self, state: u64) -> u64 {
        0
    }

    #[inline(always)]
    fn best(&self, stage: u64) -> u64 {
        0
    }

    #[inline(always)]
    fn fits_all(&self, need: u64) -> bool {
        need == 0
    }

    #[inline(always)]
    fn drives_tire(&self) {}

    ghost simulates = { λ x. simulates x.drive x.rest };

    ghost fitting = { λ x. fitting x.drive x.rest };

    ghost staged = { λ x. staged x.drive x.rest };

    ghost bests = { λ x. has_best x.drive x.rest };
}

// The sum, if it is within the limit.
#[inline(always)]
fn within(limit: u64, driven: u64, minutes: u64) -> Option<u64>
    ensures { result ≡ (one_rule limit 1).drive driven minutes }
{
    if driven <= limit && minutes <= limit - driven {
        Some(driven + minutes)
    } else {
        None
    }
}
