// The numbers of the limits, and the laws of certificates, of explanations, of texts, of routes and of nets.
ghost use Rattle.std.specs.Prelude.{◌≡◌, ◌↔◌, ℕ, List, Option, Some, None, true};
ghost use Rattle.front_desk.specs.Batch.{IsBatchReport, IsJobText};
ghost use Rattle.front_desk.specs.Check.{HasGoodCertificate, check_of_plan};
ghost use Rattle.front_desk.specs.Explain.{IsExplainText};
ghost use Rattle.front_desk.specs.OneText.{Answers, routes_certified};
ghost use Rattle.front_desk.specs.Run.{IsDue};
ghost use Rattle.front_desk.specs.Trips.{IsGoodTrip, Trip, request_of};
ghost use Rattle.front_words.specs.declared.batch.Batch.{Batch};
ghost use Rattle.front_words.specs.declared.commands.Invocation.{Invocation as Command};
ghost use Rattle.front_words.specs.declared.plan.Plan.{Plan};
ghost use Rattle.front_desk.specs.Plan.{IsCertified, trip_setting};
ghost use Rattle.front_words.specs.Forms.{is_certificate_name};
ghost use Rattle.dimacs_reader.specs.GraphModel.{IsGoodGraph};
ghost use Rattle.network_tables.specs.NetworkModel.{IsGoodNetwork, NetworkModel};
ghost use Rattle.network_tables.specs.RoadSetting.{road_setting};
ghost use Rattle.network_tables.specs.declared.jobs.Job.{Job};
ghost use Rattle.route_base.specs.Contents.{Contents};
ghost use Rattle.route_base.specs.FolderState.{FolderState};
ghost use Rattle.route_base.specs.Front.{IsRight, IsUndominated};
ghost use Rattle.route_base.specs.Legs.{Achieves};
ghost use Rattle.route_base.specs.declared.status.Status.{Status};
ghost use Rattle.route_base.specs.declared.types.Leg.{Leg};
ghost use Rattle.route_base.specs.declared.types.Pair.{Pair};
ghost use Rattle.route_base.specs.declared.types.Request.{Request};
ghost use Rattle.route_base.specs.declared.types.Route.{Route};
ghost use Rattle.trip_explain.specs.ExplanationText.{explanation_text};
ghost use Rattle.trip_explain.specs.Explanations.{IsUnlawfulAt};
ghost use Rattle.trip_explain.specs.declared.explanation.Explanation.TheVariants.{Lawful, Unlawful};
ghost use Rattle.trip_explain.specs.declared.explanation.Why.{Why};
ghost use Rattle.front_transport.specs.declared.limits.TheConstants.{MOST_STATES};
ghost use Rattle.stop_tour.specs.declared.limits.TheConstants.{MOST_STOPS};
ghost use Rattle.vehicle_classes.specs.VehicleModel.{VehicleModel};
ghost use Rattle.certificate.specs.declared.limits.TheConstants.{LONGEST_BOUND};
ghost use Rattle.front_desk.specs.declared.latest.TheConstants.{LONGEST_LATE_HORIZON};
ghost use Rattle.front_words.specs.declared.limits.TheConstants.{MOST_WORKERS, USUAL_WORKERS, USUAL_DRIVE, USUAL_REST};
ghost use Rattle.net_generator.specs.declared.limits.TheConstants.{LAST_NUMBER, MOST_GENERATED_NODES, MOST_LINES};
ghost use Rattle.network_folder.specs.declared.file_to_read.TheConstants.{LONGEST_ITINERARY};
ghost use Rattle.network_tables.specs.declared.limits.TheConstants.{MOST_JOBS};
ghost use Rattle.route_base.specs.declared.limits.TheConstants.{MOST_NODES, MOST_ARCS, LONGEST_DRIVE, LONGEST_HORIZON, LAST_DAY};
ghost use Rattle.route_base.specs.declared.limits.TheConstants.{FIRST_INSTANT, LAST_INSTANT, COST_OF_MINUTE, HEAVIEST_WEIGHT};
ghost use Rattle.route_base.specs.declared.limits.TheConstants.{HIGHEST_COST, LARGEST_SIZE, LONGEST_RULE, LONGEST_NAME, DAY_MINUTES};
ghost use Rattle.route_base.specs.declared.limits.TheConstants.{LONGEST_FOLDER, LONGEST_FILE, LONGEST_CERTIFICATE};
ghost use Rattle.route_base.specs.declared.limits.TheConstants.{MOST_ZONE_ROWS, MOST_AREAS, MOST_ROAD_ROWS, MOST_VEHICLES};
ghost use Rattle.route_base.specs.declared.limits.TheConstants.{MOST_RULES, MOST_CLOSURES, MOST_RATINGS, MOST_PARKING_ROWS};
ghost use Rattle.route_base.specs.declared.limits.TheConstants.{MOST_HOLIDAYS, MOST_TOLLS, MOST_NET_NODES, HIGHEST_TOLL, DEAREST_MINUTE};

mod nets;

pub use nets::{
    better_pairs_agree, breaks_agree, is_trip_net, judgements_agree, late_texts_agree, plans_agree,
    rested_texts_agree, tour_texts_agree,
};

/// The law of the limits: the definitions of the law take each from a constant of the code, and the constants have these numbers. They are
/// those of `docs/LIMITS.md`. The call does nothing.
pub fn limits_are_these()
    ensures graph { (MOST_NODES ≡ 500000) × (MOST_ARCS ≡ 1000000) }
    ensures net { MOST_NET_NODES ≡ 40000000 }
    ensures drive { LONGEST_DRIVE ≡ 10080 }
    ensures instants { (FIRST_INSTANT ≡ 525600) × (LAST_INSTANT ≡ 120968639) }
    ensures days { LAST_DAY ≡ 84370 }
    ensures horizon { LONGEST_HORIZON ≡ 86400 }
    ensures late_horizon { LONGEST_LATE_HORIZON ≡ 86399 }
    ensures costs { (COST_OF_MINUTE ≡ 1000) × (HIGHEST_COST ≡ 10000000000) }
    ensures dearest { (HIGHEST_TOLL ≡ 100000) × (DEAREST_MINUTE ≡ 110000) }
    ensures weight { HEAVIEST_WEIGHT ≡ 100000 }
    ensures size { LARGEST_SIZE ≡ 1000000 }
    ensures names { (LONGEST_NAME ≡ 64) × (LONGEST_FOLDER ≡ 4096) }
    ensures file { LONGEST_FILE ≡ 268435456 }
    ensures certificate { (LONGEST_CERTIFICATE ≡ 4398046511104) × (LONGEST_BOUND ≡ 10000000000) }
    ensures itinerary { LONGEST_ITINERARY ≡ 16777216 }
    ensures workers { (MOST_WORKERS ≡ 64) × (USUAL_WORKERS ≡ 4) }
    ensures drawn { (MOST_LINES ≡ 400) × (MOST_GENERATED_NODES ≡ 22500) }
    ensures number { LAST_NUMBER ≡ 2147483646 }
    ensures zones { MOST_ZONE_ROWS ≡ 10000 }
    ensures areas { MOST_AREAS ≡ 1000 }
    ensures roads { MOST_ROAD_ROWS ≡ 1000000 }
    ensures vehicles { MOST_VEHICLES ≡ 10000 }
    ensures rules { (MOST_RULES ≡ 20000) × (LONGEST_RULE ≡ 65536) }
    ensures closures { MOST_CLOSURES ≡ 100000 }
    ensures ratings { MOST_RATINGS ≡ 1000 }
    ensures parking { MOST_PARKING_ROWS ≡ 500000 }
    ensures holidays { MOST_HOLIDAYS ≡ 100000 }
    ensures tolls { MOST_TOLLS ≡ 1000000 }
    ensures jobs { MOST_JOBS ≡ 10000 }
    ensures stops { MOST_STOPS ≡ 50 }
    ensures states { MOST_STATES ≡ 40000000 }
    ensures day { DAY_MINUTES ≡ 1440 }
    ensures rule { (USUAL_DRIVE ≡ 270) × (USUAL_REST ≡ 45) }
{}

/// The law that `check` accepts what a plan writes: if the certificate of a plan was written under its name, it is a good one of the folder
/// as it is then, which a check of the same trip reads and doesn't reject (`accepted` of `run`). The call does nothing.
pub fn written_certificates_are_good()
    ensures { (plan : Plan) (name : List ℕ) (held after : Contents)
        → is_certificate_name name ≡ true → IsCertified plan name held (Some after)
        → HasGoodCertificate (check_of_plan plan name) after }
{}

/// The law of explanations: the text of lawful legs says `undominated` exactly if no lawful itinerary's pair dominates theirs, and the text
/// of unlawful legs never does: it names their leg, minute and reason. The call does nothing.
pub fn explanations_are_exact()
    ensures lawful { (network : NetworkModel) (vehicle : VehicleModel) (request : Request)
        → (legs : List Leg) (text : List ℕ) (pair : Pair)
        → IsExplainText network vehicle request legs text
        → Achieves (road_setting network vehicle) request legs pair
        → (text ≡ explanation_text (Lawful pair) None)
        ↔ IsUndominated (road_setting network vehicle) request pair }
    ensures unlawful { (network : NetworkModel) (vehicle : VehicleModel) (request : Request)
        → (legs : List Leg) (text : List ℕ) (leg minute : ℕ) (why : Why)
        → IsExplainText network vehicle request legs text
        → IsUnlawfulAt network vehicle request legs leg minute why
        → text ≡ explanation_text (Unlawful leg minute why) None }
{}

/// The law of one text: over the same files, a command prints no other text if it is done; words have no other status and no other text,
/// be it an answer, a refusal or a rejection, unless reading, writing or memory fails; a job of a batch has no other text; batches of the
/// same table of jobs print one text, whatever the number of workers; and the certificates that plans of the same words write have the same
/// routes. So another run, and another version that meets `run`, print the same, byte for byte. The call does nothing.
pub fn one_text()
    ensures command { (command : Command) (held : Contents) (after other : Option Contents)
        → (x y : List ℕ)
        → Answers command held after x → Answers command held other y → x ≡ y }
    ensures words { (words : List (List ℕ)) (held : Contents)
        → (old new before after : FolderState) (status other : Status) (x y : List ℕ)
        → old.contents ≡ Some held → before.contents ≡ Some held
        → IsDue words old new status x → IsDue words before after other y
        → (status ≡ other) × (x ≡ y) }
    ensures job { (network : NetworkModel) (job : Job) (x y : List ℕ)
        → IsJobText network job x → IsJobText network job y → x ≡ y }
    ensures workers { (batch other : Batch) (held : Contents) (x y : List ℕ)
        → batch.dir ≡ other.dir → batch.jobs ≡ other.jobs
        → IsBatchReport batch held x → IsBatchReport other held y → x ≡ y }
    ensures certificates { (plan : Plan) (name : List ℕ) (held : Contents)
        → (after other : Option Contents)
        → (one : IsCertified plan name held after) → (two : IsCertified plan name held other)
        → routes_certified one.certified ≡ routes_certified two.certified }
{}

/// The law that a trip between nodes of a sound network, over a time of at most 60 days, has a right answer, whatever its vehicle: so
/// no request that passes all checks is without one. The call does nothing.
pub fn some_routes()
    ensures { (network : NetworkModel) (trip : Trip) → IsGoodNetwork network
        → IsGoodGraph network.graph → IsGoodTrip network.graph.nodes trip
        → (routes : List Route) × IsRight (trip_setting network trip) (request_of trip) routes }
{}
