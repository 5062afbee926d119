// The checks of a request.
use super::{GRAPH, expect_texts};
use route_base::Status;

// Words, and their refusals.
const REFUSED: &[(&str, &str)] = &[
    (
        "plan d x 1 3 26563680 26564080",
        "refused request UnknownVehicle\n",
    ),
    (
        "plan d Any 0 9 26563680 26563679",
        "refused request UnknownVehicle\n",
    ),
    (
        "plan d any 0 3 26563680 26564080",
        "refused request OriginRange\n",
    ),
    (
        "plan d any 4 0 26563680 26563679",
        "refused request OriginRange\n",
    ),
    (
        "plan d any 4294967295 3 26563680 26564080",
        "refused request OriginRange\n",
    ),
    (
        "plan d any 1 0 26563680 26563679",
        "refused request GoalRange\n",
    ),
    (
        "plan d any 1 4 26563680 26564080",
        "refused request GoalRange\n",
    ),
    (
        "plan d any 1 3 26563680 26563679",
        "refused request UntilBeforeDepart\n",
    ),
    (
        "plan d any 1 3 120968639 525600",
        "refused request UntilBeforeDepart\n",
    ),
    (
        "plan d any 1 3 26563680 26650081",
        "refused request HorizonTooLong\n",
    ),
    (
        "plan d any 1 3 525600 120968639",
        "refused request HorizonTooLong\n",
    ),
];

#[test]
fn refuses_requests_at_their_first_failed_check(rt: HostRuntime) {
    expect_texts(&rt, GRAPH, Status::BadRequest, REFUSED);
}
