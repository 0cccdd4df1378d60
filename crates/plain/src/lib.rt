//! The plain store on lines: the request that a line is, the line of a reply, and `serve`, which reads lines and writes
//! the replies to them. The requests and the store itself, which are in crates below, are re-exported.
#![tactic(auto)]

mod devices;
mod laws;
mod lines;
mod server;

pub use devices::buffers::BufferSink;
pub use devices::input::{InputFault, read_all};
pub use devices::slices::SliceSource;
pub use devices::stream::{Sink, Source, write_all};
pub use devices::wrappers::{ReadSource, WriteSink};
pub use laws::lines_are_one_run;
pub use lines::members::{end_line, write_integer_member, write_object_member, write_text_member};
pub use lines::reply_value::write_reply;
pub use lines::request_error::RequestError;
pub use lines::request_line::{read_request, request_in};
pub use lines::split::split_line;
pub use plain_store::{
    Api, ApiFault, MAX_REVISIONS, Plain, PlainError, PrintedReply, StoredReply,
    capacity_bounds_the_counter, compactions_give_up_the_past_alone, deletes_spare_other_uids,
    deletes_take_what_is_there, generation_rises_with_spec, lists_are_complete,
    lists_of_one_version_are_equal, names_live_once, objects_stand_under_their_keys,
    old_objects_were_there, only_the_status_request_changes_status,
    only_what_was_compacted_expires, only_writes_and_compactions_change_the_store, past_stays,
    reads_change_nothing, requests_touch_one_key, runs_go_on, uids_are_given_once,
    uids_name_one_key, uids_stay, updates_with_a_stale_version_change_nothing,
    versions_rise_by_one,
};
pub use requests::{
    Change, ChangeKind, Judgment, Listing, Reason, Reply, Request, Verdict, Version, decide, judge,
};
pub use server::{ServeFault, serve};
