// What a plan consists of.
use objects::{Object, Text};
use pod_steps::Cause;

/// One action of a plan. Each but `Wait` is one request to the API.
#[derive(Drop)]
pub enum Action {
    /// Creates this PersistentVolumeClaim.
    CreateClaim(Object),
    /// Creates this Pod.
    CreatePod(Object),
    /// Deletes the pod of that name, if it still has the UID of that number. 0 means a pod that was listed without one.
    DeletePod { name: Text, uid: u64 },
    /// Updates this PersistentVolumeClaim, if it still has its UID and its version.
    UpdateClaim(Object),
    /// Creates this ControllerRevision if its UID is 0, and else updates it, if it still has its UID and its version.
    WriteRevision(Object),
    /// Deletes the ControllerRevision of that name, if it still has the UID and the version of these numbers. 0 means
    /// one that was listed without them.
    DeleteRevision { name: Text, uid: u64, version: u64 },
    /// Updates the status of this StatefulSet, if it still has its UID and its version.
    WriteStatus(Object),
    /// Waits for the pod of that name. It is no request.
    Wait(Cause, Text),
}

/// What is to be done for a set now, in order. Of a longer plan these are the first 1,024 actions, and the rest is left
/// to the next plan.
#[derive(Drop)]
pub struct Plan {
    pub actions: Vec<Action>,
}
