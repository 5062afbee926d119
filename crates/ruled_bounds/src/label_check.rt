// Labels to a goal, and a check that they hold along each arc and rest.
ghost use Rattle.std.specs.Prelude.{◌≡◌, ◌+◌, ◌++◌, ◌≤◌, ℕ, slice_get, Some, All, IsTrue, IfOk, IfSome};
ghost use Rattle.route_base.specs.Net.{setting_of, road_of};
ghost use Rattle.route_base.specs.Setting.{Road};
ghost use Rattle.state_dominance.specs.Inside.Product.{AreRuledBounds};
ghost use Rattle.ruled_states.specs.Inside.Labels.{labels_at, far_labels, labels_for, lists_of, label_bound};
ghost use Rattle.ruled_bounds.specs.Inside.GoodLabels.{HasAsGood, HoldsAlong, HoldsAt, AreGoodLabels, NeedsNoRest, counting_of, HoldsBy, RestsHold, HoldsServed, ServesAt, ServesBy};
ghost use Rattle.ruled_states.specs.Inside.Services.{service_at};

use crate::back_star::BackStar;
use crate::label_search::{Counted, Ground, found_labels};
use crate::stage_sums::{breaks_matter_little, stage_labels};
use crate::stages::count_below;
use route_base::{ArcId, NodeId, OutOfMemory, Park, TimedArc};
use ruled_states::{Label, Labels, Ruler, Service, far_labels_of, labels_of};
use std::alloc::Global;

// Whether some label from the need's stage on is worth no more and needs no more. The labels are by rising stage.
#[inline(always)]
fn has_as_good<R: Ruler>(ruler: &R, labels: &[Label], value: u64, need: u64) -> bool
    ensures { IsTrue result → HasAsGood (R.ruling ruler.now) labels.now value need }
{
    let from = count_below(ruler, labels, ruler.stage(need));
    for k in from..labels.len() {
        if labels[k].value <= value && ruler.is_no_worse(labels[k].need, need) {
            return true;
        }
    }
    false
}

// The same for a node's own labels and those that count for every node.
#[inline(always)]
fn either_has_as_good<R: Ruler>(
    ruler: &R,
    own: &[Label],
    far: &[Label],
    value: u64,
    need: u64,
) -> bool
    ensures { IsTrue result → HasAsGood (R.ruling ruler.now) (own.now ++ far.now) value need }
{
    if has_as_good(ruler, own, value, need) {
        return true;
    }
    has_as_good(ruler, far, value, need)
}

// Whether some label that counts for the tail is as good as that of the head behind the arc, where the arc may be driven.
#[inline(always)]
fn is_held<R: Ruler>(
    ruler: &R,
    counted: Counted,
    tails: &[Label],
    far: &[Label],
    label: Label,
    arc: TimedArc,
) -> bool
    ensures { IsTrue result → (m : ℕ) → (R.ruling ruler.now).drive label.need arc.minutes ≡ Some m
        → HasAsGood (R.ruling ruler.now) (tails.now ++ far.now)
        (label.value + (counting_of counted).of_drive (road_of arc)) m }
{
    let Some(need) = ruler.drive(label.need, arc.minutes) else {
        return true;
    };
    let value = label.value.saturating_add(counted.of_drive(arc));
    either_has_as_good(ruler, tails, far, value, need)
}

// Whether the labels hold along the arc. Those that count for every node do by themselves.
fn holds_along<R: Ruler>(ruler: &R, counted: Counted, lists: &[Vec<Label>], arc: TimedArc) -> bool
    ensures { IsTrue result → HoldsAlong (R.ruling ruler.now) (counting_of counted)
        (lists_of lists.now) (road_of arc) }
{
    let tails = labels_of(lists, arc.tail);
    let far = far_labels_of(lists);
    for label in labels_of(lists, arc.head) {
        if !is_held(ruler, counted, tails, far, *label, arc) {
            return false;
        }
    }
    true
}

// Whether the labels hold along the arc of this number, if there is one.
fn arc_holds<R: Ruler>(
    ground: &Ground<'_, R>,
    counted: Counted,
    lists: &[Vec<Label>],
    a: ArcId,
) -> bool
    ensures { IsTrue result → HoldsBy (R.ruling ground.now.ruler.now) (counting_of counted)
        (lists_of lists.now) ((setting_of ground.now.net.now).road a.0) }
{
    match ground.net.arc(a) {
        Some(arc) => holds_along(ground.ruler, counted, lists, arc),
        None => true,
    }
}

// Whether the labels hold along each arc.
fn arcs_hold<R: Ruler>(ground: &Ground<'_, R>, counted: Counted, lists: &[Vec<Label>]) -> bool
    ensures { IsTrue result → (a : ℕ) → HoldsBy (R.ruling ground.now.ruler.now)
        (counting_of counted) (lists_of lists.now) ((setting_of ground.now.net.now).road a) }
{
    for k in 0..ground.net.arc_count() {
        if !arc_holds(ground, counted, lists, ArcId(k + 1)) {
            return false;
        }
    }
    true
}

// Whether a label of the node is as good as another behind a rest.
#[inline(always)]
fn is_rested<R: Ruler>(
    ruler: &R,
    counted: Counted,
    own: &[Label],
    label: Label,
    park: Park,
    rest: u64,
) -> bool
    ensures { IsTrue result → HasAsGood (R.ruling ruler.now) own.now
        (label.value + (counting_of counted).of_rest rest park.weight)
        ((R.ruling ruler.now).rest label.need rest) }
{
    let need = ruler.rest(label.need, rest);
    let value = label.value.saturating_add(counted.of_rest(rest, park));
    has_as_good(ruler, own, value, need)
}

// Whether the labels of the node hold behind a rest.
fn rest_holds<R: Ruler>(ruler: &R, counted: Counted, own: &[Label], park: Park, rest: u64) -> bool
    ensures { IsTrue result → HoldsAt (R.ruling ruler.now) (counting_of counted) own.now
        park.weight rest }
{
    for label in own {
        if !is_rested(ruler, counted, own, *label, park, rest) {
            return false;
        }
    }
    true
}

// Whether the labels of a node hold behind each rest at its park.
fn park_holds<R: Ruler>(ruler: &R, counted: Counted, own: &[Label], park: Park) -> bool
    ensures { IsTrue result → All (HoldsAt (R.ruling ruler.now) (counting_of counted) own.now
        park.weight) (R.ruling ruler.now).rests }
{
    for rest in ruler.rests() {
        if !rest_holds(ruler, counted, own, park, *rest) {
            return false;
        }
    }
    true
}

// Whether the labels of the node hold behind each rest there.
fn node_holds<R: Ruler>(
    ground: &Ground<'_, R>,
    counted: Counted,
    lists: &[Vec<Label>],
    v: NodeId,
) -> bool
    ensures { IsTrue result → RestsHold (R.ruling ground.now.ruler.now) (counting_of counted)
        (labels_at (lists_of lists.now) v.0) ((setting_of ground.now.net.now).weight v.0) }
{
    match ground.net.park(v) {
        Some(park) => park_holds(ground.ruler, counted, labels_of(lists, v), park),
        None => true,
    }
}

// Whether the labels hold behind each rest at each node.
fn nodes_hold<R: Ruler>(ground: &Ground<'_, R>, counted: Counted, lists: &[Vec<Label>]) -> bool
    ensures { IsTrue result → (v : ℕ) → RestsHold (R.ruling ground.now.ruler.now)
        (counting_of counted) (labels_at (lists_of lists.now) v)
        ((setting_of ground.now.net.now).weight v) }
{
    for k in 0..ground.net.node_count() {
        if !node_holds(ground, counted, lists, NodeId(k + 1)) {
            return false;
        }
    }
    true
}

// Whether no rest makes the need of the label a better one.
fn needs_no_rest<R: Ruler>(ruler: &R, label: Label) -> bool
    ensures { IsTrue result → NeedsNoRest (R.ruling ruler.now) label }
{
    for rest in ruler.rests() {
        if !ruler.is_no_worse(label.need, ruler.rest(label.need, *rest)) {
            return false;
        }
    }
    true
}

// The same for each of these labels.
fn need_no_rest<R: Ruler>(ruler: &R, labels: &[Label]) -> bool
    ensures { IsTrue result → All (NeedsNoRest (R.ruling ruler.now)) labels.now }
{
    for label in labels {
        if !needs_no_rest(ruler, *label) {
            return false;
        }
    }
    true
}

// Whether a label that counts for the node is as good as another behind the service at a place, where it may be taken back.
#[inline(always)]
fn is_served<R: Ruler>(
    ruler: &R,
    counted: Counted,
    own: &[Label],
    far: &[Label],
    label: Label,
    service: Service,
    place: u64,
) -> bool
    ensures { IsTrue result → (m : ℕ) → (R.ruling ruler.now).unserve label.need place ≡ Some m
        → HasAsGood (R.ruling ruler.now) (own.now ++ far.now)
        (label.value + (counting_of counted).of_service (service_at service)) m }
{
    let Some(need) = ruler.unserve(label.need, place) else {
        return true;
    };
    let value = label.value.saturating_add(counted.of_service(service));
    either_has_as_good(ruler, own, far, value, need)
}

// Whether these labels of the node hold behind the service at a place.
fn service_holds<R: Ruler>(
    ruler: &R,
    counted: Counted,
    own: &[Label],
    far: &[Label],
    labels: &[Label],
    service: Service,
    place: u64,
) -> bool
    ensures { IsTrue result → HoldsServed (R.ruling ruler.now) (counting_of counted)
        (own.now ++ far.now) labels.now place (service_at service) }
{
    for label in labels {
        if !is_served(ruler, counted, own, far, *label, service, place) {
            return false;
        }
    }
    true
}

// Whether the labels of the node, and those that count for every node, hold behind the service at a place.
fn serves_at<R: Ruler>(
    ruler: &R,
    counted: Counted,
    own: &[Label],
    far: &[Label],
    service: Service,
    place: u64,
) -> bool
    ensures { IsTrue result → ServesAt (R.ruling ruler.now) (counting_of counted) own.now far.now
        place (service_at service) }
{
    if !service_holds(ruler, counted, own, far, own, service, place) {
        return false;
    }
    service_holds(ruler, counted, own, far, far, service, place)
}

// Whether the labels hold behind the service at a place, if there is one.
fn place_holds<R: Ruler>(
    ground: &Ground<'_, R>,
    counted: Counted,
    lists: &[Vec<Label>],
    place: u64,
) -> bool
    ensures { IsTrue result → ServesBy (R.ruling ground.now.ruler.now) (counting_of counted)
        (lists_of lists.now) place (slice_get (R.ruling ground.now.ruler.now).services place) }
{
    match ground.ruler.service(place) {
        Some(service) => serves_at(
            ground.ruler,
            counted,
            labels_of(lists, service.node),
            far_labels_of(lists),
            service,
            place,
        ),
        None => true,
    }
}

// Whether the labels hold behind each service.
fn places_hold<R: Ruler>(ground: &Ground<'_, R>, counted: Counted, lists: &[Vec<Label>]) -> bool
    ensures { IsTrue result → (i : ℕ) → ServesBy (R.ruling ground.now.ruler.now)
        (counting_of counted) (lists_of lists.now) i
        (slice_get (R.ruling ground.now.ruler.now).services i) }
{
    for k in 0..ground.ruler.service_count() {
        if !place_holds(ground, counted, lists, k) {
            return false;
        }
    }
    true
}

// Whether the labels hold along each arc and behind each rest and service, and the goal has one of nothing. One pass over the arcs and labels.
fn lists_hold<R: Ruler>(ground: &Ground<'_, R>, counted: Counted, lists: &[Vec<Label>]) -> bool
    ensures { IsTrue result → AreGoodLabels (setting_of ground.now.net.now)
        (R.ruling ground.now.ruler.now) ground.now.goal.0 (counting_of counted)
        (lists_of lists.now) }
{
    either_has_as_good(
        ground.ruler,
        labels_of(lists, ground.goal),
        far_labels_of(lists),
        0,
        ground.ruler.last(),
    ) && need_no_rest(ground.ruler, far_labels_of(lists))
        && arcs_hold(ground, counted, lists)
        && nodes_hold(ground, counted, lists)
        && places_hold(ground, counted, lists)
}

// One label for each node and stage, if breaks take little, or all that aren't dominated.
fn labels_of_both<R: Ruler>(alloc: Global, ground: &Ground<'_, R>) -> Result<Labels, OutOfMemory> {
    let star = BackStar::new(alloc, ground.net, ground.incoming)?;
    if ground.ruler.service_count() > 0 && breaks_matter_little(alloc, ground, &star)? {
        return stage_labels(alloc, ground, &star);
    }
    let minutes = found_labels(alloc, ground, &star, Counted::Minutes, None)?;
    let costs = found_labels(alloc, ground, &star, Counted::Cost, None)?;
    Ok(Labels { minutes, costs })
}

/// Labels to the goal whose bounds hold along each drive and rest of each state; none, if what the search finds doesn't.
pub fn ruled_labels<R: Ruler>(
    alloc: Global,
    ground: &Ground<'_, R>,
) -> Result<Option<Labels>, OutOfMemory>
    ensures { IfOk result (λ found. IfSome found (λ labels.
        AreRuledBounds (setting_of ground.now.net.now) (R.ruling ground.now.ruler.now)
        ground.now.goal.0 (label_bound (R.ruling ground.now.ruler.now)
        (lists_of labels.minutes.items) (lists_of labels.costs.items)))) }
{
    ground.ruler.drives_tire();
    let found = labels_of_both(alloc, ground)?;
    if !lists_hold(ground, Counted::Minutes, found.minutes.as_slice()) {
        return Ok(None);
    }
    if !lists_hold(ground, Counted::Cost, found.costs.as_slice()) {
        return Ok(None);
    }
    Ok(Some(found))
}
