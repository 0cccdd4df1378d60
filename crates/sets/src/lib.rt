//! The plan of a StatefulSet: what its controller sends to the API, given the set and the objects of its namespace.
//! What the plan reads, and the collector of claims, are re-exported from the crates below.
#![tactic(auto)]

mod action;
mod actions;
mod ending;
mod laws;
mod planner;
mod steps;

pub use action::{Action, Plan};
pub use collector::{collect, collected_claims_are_collectable, owned_claims_stay};
pub use laws::{
    plans_are_equal, plans_change_owners_alone, plans_create_free_names, plans_create_in_turn,
    plans_delete_owned_pods, plans_go_by_first_objects, plans_keep_healthy_pods_on_delete,
    plans_make_claims_before_their_pod, plans_replace_one_pod, plans_retain_claims,
    plans_touch_one_pod_in_order, plans_update_downward, plans_update_healthy_sets_in_order,
    revisions_are_written_alone,
};
pub use planner::plan;
pub use pod_steps::Cause;
pub use revisions::{RevisionPlan, RevisionView, Revisions, revision_plan};
pub use set_views::{
    PlanError, PodView, Policy, Readiness, Retention, Set, Strategy, read_pod, read_set,
};
