//! The walk over the pods of a StatefulSet: which pod to create, which to delete, and which to wait for.
#![tactic(auto)]

mod laws;
mod listing;
mod ordered_ready;
mod parallel;
mod planner;
mod predicates;
mod replica;
mod single;
mod status;
mod step;
mod update;
mod views;

pub use laws::{
    creates_are_of_free_names, creates_follow_healthy_pods, deletes_are_of_owned_pods,
    no_healthy_pod_goes_on_delete, one_pod_at_a_time, plans_are_truncated_at_the_limit,
    plans_go_by_first_pods, replacements_go_downward, replacements_wait_for_all_in_order,
    the_first_pod_of_a_name_counts,
};
pub use listing::{by_ordinal, replicas_of};
pub use planner::pod_steps;
pub use replica::Replica;
pub use status::{Counts, counts_of, is_rolled_out};
pub use step::{Cause, Revision, Step, are_quiet};
pub use views::views_of;
