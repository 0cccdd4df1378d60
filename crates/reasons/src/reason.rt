/// Why a plan has an action.
#[derive(Clone, Copy)]
pub enum Reason {
    /// No reason is given.
    Unstated,
    /// A pod is deleted whose ordinal is out of range.
    OutOfRange,
    /// A pod in range is deleted that has failed.
    Failed,
    /// A pod in range is deleted that is to be made again from the update revision.
    Outdated,
    /// A claim will have no owner, so it stays.
    Stays,
    /// A claim will have the set as its only owner, and is deleted with it.
    DeletedWithSet,
    /// A claim will have its pod as its only owner, of this ordinal, and is deleted with it.
    DeletedWithPod(u32),
    /// The plan waits for a pod that is itself the next to be updated.
    HoldsUpItself,
    /// The plan waits for a pod, and the one of this ordinal is the next to be updated.
    HoldsUp(u32),
}
