use crate::set_spec::SetSpec;

/// A cluster before its first event: a store, and one controller for each set in the list, numbered from 0. Several may
/// have the same set.
#[derive(Drop)]
pub struct ClusterSpec {
    /// From 1 to 64.
    pub shards: usize,
    /// How many resource versions the store may allocate, from 1 to 1,048,576.
    pub capacity: u64,
    pub sets: Vec<SetSpec>,
}
