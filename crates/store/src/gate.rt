/// What is called at chosen points of a run, so that a test can hold a thread there. It gets no handle to wait with.
/// One that keeps a handle of its own and calls its own store from `between` blocks a shard for good.
pub trait Gate {
    /// Called by a write between the draw of this number and its fill, under the lock of its shard.
    fn between(&self, number: u64);

    /// Called when a round of a controller begins, the rounds of each numbered from 1, with no lock held.
    fn round(&self, controller: u64, round: u64);
}

/// A gate that does nothing.
pub struct NoGate;

impl Gate for NoGate {
    fn between(&self, _number: u64) {}

    fn round(&self, _controller: u64, _round: u64) {}
}
