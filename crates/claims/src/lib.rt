//! The PersistentVolumeClaims of a StatefulSet's pods: which of them a plan creates, and which owners it gives to those
//! that are there.
#![tactic(auto)]

mod change;
mod entries;
mod laws;
mod listed;
mod owner;
mod pods;

pub use change::{ClaimChange, keep_claims, make_claims, release_claims};
pub use laws::{
    claims_as_wanted_are_left, only_owners_of_the_set_and_its_pod_change,
    retained_claims_have_no_such_owner,
};
pub use listed::ListedClaims;
