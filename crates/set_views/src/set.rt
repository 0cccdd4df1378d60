ghost use Rattle.std.specs.Prelude.{◌≡◌, ◌+◌, ◌≤◌, ◌<◌, ◌^◌, true};
ghost use Rattle.set_views.specs.Claims.{are_labelled};

use crate::policies::{Policy, Retention, Strategy};
use objects::{Members, Object, Text};

/// A StatefulSet as a plan needs it, read once.
#[derive(Drop)]
pub struct Set {
    /// The StatefulSet itself.
    pub object: Object,
    /// `spec.template`: what its pods are made from.
    pub template: Members,
    /// `spec.ordinals.start`: the first ordinal, 0 if it is missing.
    pub start: u32,
    /// `spec.replicas`: how many ordinals are in range, 1 if it is missing.
    pub replicas: u32,
    /// `spec.podManagementPolicy`, OrderedReady if it is missing.
    pub policy: Policy,
    /// `spec.updateStrategy`, RollingUpdate from 0 on if it is missing.
    pub strategy: Strategy,
    /// `spec.persistentVolumeClaimRetentionPolicy.whenDeleted`, Retain if it is missing.
    pub when_deleted: Retention,
    /// `spec.persistentVolumeClaimRetentionPolicy.whenScaled`, Retain if it is missing.
    pub when_scaled: Retention,
    /// `spec.revisionHistoryLimit`: how many revisions are kept that no pod needs, 10 if it is missing.
    pub history_limit: u32,
    /// `spec.volumeClaimTemplates`: the name of each, and its members.
    pub claims: Vec<(Text, Members)>,
    /// `spec.serviceName`, if it is a text that is not empty.
    pub service: Option<Text>,
    /// `status.collisionCount`, 0 if it is missing.
    pub collisions: u32,
    /// `status.currentRevision`: the name of a ControllerRevision.
    pub current: Option<Text>,
    ghost named: { 0 < object.meta.uid },
    ghost in_limits: { start + replicas ≤ 2 ^ 31 },
    ghost counted: { collisions < 2 ^ 31 },
    ghost labelled: { are_labelled claims.items ≡ true },
}
