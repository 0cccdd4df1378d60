//! Clusters whose store is quiet: each request that is sent or continued there, while no other caller moves, gets its
//! reply, and one that is sent there gets the reply of a plain store.
#![tactic(auto)]

mod examples;
mod laws;

pub use examples::a_quiet_list;
pub use laws::{
    quiet_asks_are_answered, quiet_is_kept, quiet_requests_are_answered,
    quiet_stores_are_plain_stores,
};
