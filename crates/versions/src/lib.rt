//! One shard of versions: what its keys were, at each number that may still be read.
#![tactic(auto)]

mod gathered;
mod laws;
mod shard;

pub use gathered::Gathered;
pub use laws::states_have_the_values;
pub use shard::Shard;
