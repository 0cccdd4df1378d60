use std::collections::LinkedList;

/// What a seat knows of the line, except notes. Only contracts see it: no value of it is made.
pub struct View {
    /// How many numbers the line has; 0 is of no seat that can step.
    pub capacity: u64,
    /// How many shard seats it stands for: 1 for a shard's, 0 for a caller's, and for the first seat those that are still
    /// to be cut off.
    pub seats: u64,
    /// The numbers that it filled, in the order in which it drew them.
    pub filled: LinkedList<u64>,
    /// The number that it drew and did not fill yet.
    pub pending: Option<u64>,
    /// Whether it found all numbers drawn.
    pub spent: bool,
    /// The highest frontier that it knows of.
    pub seen: u64,
    /// The last number whose mark it found set, 0 if it found none.
    pub found: u64,
    /// How often it loaded the frontier.
    pub loads: u64,
    /// The numbers whose marks it looked at, each with whether the mark was set.
    pub tries: LinkedList<(u64, bool)>,
}

/// What a caller learned of a shard on a visit. Only contracts see it: no value of it is made.
pub struct Observation<E> {
    /// Which shard it was, from 0 on.
    pub shard: u64,
    /// How many numbers were drawn then.
    pub drawn: u64,
    /// All notes that the shard had then, each with its number.
    pub notes: LinkedList<(u64, E)>,
    /// From which number on the shard could be read then, as the visit said.
    pub floor: u64,
}

/// What a seat knows, with the notes of the numbers. Only contracts see it: no value of it is made.
pub struct NotedView<E> {
    /// What it knows, except notes.
    pub plain: View,
    /// How many shards' seats were cut off it, in the first seat of a line alone.
    pub made: Option<u64>,
    /// Which shard's seat it is, from 0 on.
    pub shard: Option<u64>,
    /// The notes of that shard, each with its number, rising.
    pub notes: LinkedList<(u64, E)>,
    /// The name of the caller that it is the seat of, or that is in it, from 1 on.
    pub caller: Option<u64>,
    /// The notes of that caller, each with its number, rising.
    pub own_notes: LinkedList<(u64, E)>,
    /// The notes from 1 to the frontier that it has seen.
    pub seen: LinkedList<E>,
    /// The notes that another seat had seen, and that were reported to this one.
    pub reported: LinkedList<E>,
    /// What the caller learned of shards, an entry for each `observe`.
    pub observations: LinkedList<Observation<E>>,
}
