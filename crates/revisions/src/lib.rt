//! The ControllerRevisions of a StatefulSet: which are the set's, in which order, and which one its pods are to get.
#![tactic(auto)]

mod built;
mod choice;
mod history;
mod listed;
mod name;
mod plan;
mod view;

pub use built::owned_metadata;
pub use history::expired_revisions;
pub use plan::{RevisionPlan, Revisions, revision_plan};
pub use view::RevisionView;
