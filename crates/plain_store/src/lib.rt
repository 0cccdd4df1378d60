//! The plain store: one map of objects that handles whole requests, one at a time, and the laws of its runs.
#![tactic(auto)]

mod api;
mod laws;
mod printed_reply;
mod store;
mod stored_reply;
mod tree_store;

pub use api::{Api, ApiFault};
pub use laws::changes::{
    generation_rises_with_spec, only_the_status_request_changes_status,
    updates_with_a_stale_version_change_nothing,
};
pub use laws::lifetimes::{
    names_live_once, objects_stand_under_their_keys, old_objects_were_there, uids_name_one_key,
    uids_stay,
};
pub use laws::lists::lists_are_complete;
pub use laws::past::{
    compactions_give_up_the_past_alone, lists_of_one_version_are_equal,
    only_what_was_compacted_expires, past_stays,
};
pub use laws::runs::{
    capacity_bounds_the_counter, deletes_spare_other_uids, deletes_take_what_is_there,
    only_writes_and_compactions_change_the_store, reads_change_nothing, requests_touch_one_key,
    runs_go_on, uids_are_given_once, versions_rise_by_one,
};
pub use printed_reply::PrintedReply;
pub use store::{MAX_REVISIONS, Plain, PlainError};
pub use stored_reply::StoredReply;
pub use tree_store::Trees;
