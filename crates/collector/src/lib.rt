//! The collector of claims: which PersistentVolumeClaims no longer have an owner, and the requests that delete them.
#![tactic(auto)]

mod deletes;
mod laws;
mod listed;

pub use deletes::{collect, owner_number};
pub use laws::{collected_claims_are_collectable, owned_claims_stay};
