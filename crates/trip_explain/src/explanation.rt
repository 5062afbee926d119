// Why an itinerary is unlawful.
use route_base::{Minute, Pair};
use vehicle_classes::Key;

/// Why a step of an itinerary is unlawful.
#[derive(Clone, Copy, Debug, PartialEq, Eq)]
pub enum Why {
    /// There is no such arc, or it doesn't begin at the node.
    Tail,
    /// The step ends after the horizon.
    Late,
    /// The node has no weight, so waiting isn't allowed there.
    Unrated,
    /// Waiting at the node isn't open at the minute.
    Shut,
    /// The legs don't end at the goal.
    Goal,
    /// The rule that decides, of the arc or else of its area, doesn't let the vehicle in. Clauses are counted from 1; a plain value has one.
    Rule {
        of_arc: bool,
        key: Key,
        conditional: bool,
        clause: u64,
    },
    /// The arc's closure of this number, from 1 in the order of its rows.
    Closure(u64),
}

/// The pair of lawful legs, or the first unlawful leg, counted from 1, with its minute and the reason.
#[derive(Clone, Copy, Debug, PartialEq, Eq)]
pub enum Explanation {
    Lawful(Pair),
    Unlawful { leg: u64, minute: Minute, why: Why },
}
