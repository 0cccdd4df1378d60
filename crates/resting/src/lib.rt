//! Sets at rest: their plans are empty, and rounds over them write nothing. And what a plan and a kubelet's turn do to a store.
#![tactic(auto)]

mod laws;

pub use laws::{
    accepted_plans_are_carried_out, collections_leave_no_claim_to_collect,
    collections_take_ownerless_claims, controllers_end_their_rounds,
    empty_plans_are_of_sets_at_rest, planned_requests_are_acceptable,
    planned_requests_are_accepted, plans_act_on_the_pods, plans_and_turns_are_rounds_on_pods,
    plans_give_claims_their_owners, plans_remove_expired_revisions, plans_write_the_status,
    rounds_over_still_stores_write_nothing, sets_come_to_rest_in_stores,
    sets_come_to_stand_in_stores, sets_that_stand_come_to_rest, stores_of_sets_at_rest_stay,
    turns_over_tended_pods_send_nothing, turns_tend_the_pods, update_revisions_are_put_in_place,
    writes_apart_are_accepted, writes_apart_do_as_alone,
};
