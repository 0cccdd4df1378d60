//! The objects that a plan of a StatefulSet writes, except revisions: the pods and the claims that it creates, and the
//! set with its new status.
#![tactic(auto)]

mod claim;
mod members;
mod pod;
mod pod_template;
mod status;
mod template;
mod volumes;

pub use claim::claim_of;
pub use pod::pod_of;
pub use pod_template::PodTemplate;
pub use status::{Status, with_status};
