// Nets in which every cost is in proportion to minutes: there the least costs follow from the least minutes.
ghost use Rattle.std.specs.Prelude.{◌≡◌, ◌↔◌, ◌-◌, ◌*◌, ◌^◌, ◌<◌, IsTrue, min, IfSome};
ghost use Rattle.std.specs.Option.{option_map};
ghost use Rattle.route_base.specs.Net.{setting_of};
ghost use Rattle.route_base.specs.declared.limits.TheConstants.{COST_OF_MINUTE};
ghost use Rattle.potentials.specs.Proportion.{IsProportional, AreProportional};

use route_base::limits::COST_OF_MINUTE;
use route_base::{ArcId, TimedNet};

/// Whether every arc costs `COST_OF_MINUTE` for each of its minutes. One pass over the arcs, up to the first that doesn't; no memory.
pub fn has_proportional_costs(net: &TimedNet) -> bool
    ensures { IsTrue result ↔ AreProportional (setting_of net.now).road }
{
    for k in 0..net.arc_count() {
        if !is_proportional(net, ArcId(k + 1)) {
            return false;
        }
    }
    true
}

// Whether the arc of this number, if there is one, costs `COST_OF_MINUTE` for each of its minutes.
fn is_proportional(net: &TimedNet, a: ArcId) -> bool
    ensures { IsTrue result ↔ IsProportional ((setting_of net.now).road a.0) }
{
    match net.arc(a) {
        Some(arc) => arc.cost == COST_OF_MINUTE * arc.minutes,
        None => true,
    }
}

/// What minutes cost at `COST_OF_MINUTE` each, where there are any.
#[inline(always)]
pub fn cost_of_sum(minutes: Option<u64>) -> Option<u64>
    requires fits { IfSome minutes (λ x. COST_OF_MINUTE * x < 2 ^ 64) }
    ensures { result ≡ option_map (λ x. COST_OF_MINUTE * x) minutes }
{
    Some(COST_OF_MINUTE * minutes?)
}

/// What minutes cost at `COST_OF_MINUTE` each; `u64::MAX` where that is more.
pub fn cost_of(minutes: u64) -> u64
    ensures { result ≡ min (COST_OF_MINUTE * minutes) (2 ^ 64 - 1) }
{
    COST_OF_MINUTE.saturating_mul(minutes)
}
