//! Requests to a store of objects, what they do, and the replies to them.
#![tactic(auto)]

mod admission;
mod by_text;
mod change;
mod change_kind;
mod listing;
mod outcomes;
mod preconditions;
mod reply;
mod request;
mod same;
mod table;
mod verdict;
mod version;

pub use admission::{Kept, create_denied, found};
pub use by_text::judge_printed;
pub use change::Change;
pub use change_kind::ChangeKind;
pub use listing::Listing;
pub use preconditions::{has_status, uid_precondition, version_precondition};
pub use reply::{Reason, Reply};
pub use request::Request;
pub use table::{decide, decide_whole, judge};
pub use verdict::{Judgment, Verdict};
pub use version::Version;
