//! What only calls show of a run, of the plain store and of a shard.
#![tactic(auto)]

#[cfg(test)]
mod runs;
#[cfg(test)]
mod served;
#[cfg(test)]
mod shards;
