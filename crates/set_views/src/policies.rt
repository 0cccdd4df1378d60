// The members of a set's `spec` that choose how its pods are treated.
ghost use Rattle.std.specs.Prelude.{◌≡◌, option_map};
ghost use Rattle.objects.specs.Tree.{data_of};
ghost use Rattle.set_views.specs.Policies.{policy_of, retention_of, strategy_named, strategy_of};

use crate::values::{count_or, inside, is_word, present};
use objects::Tree;

/// How pods are scaled (Kubernetes, "StatefulSets": "Pod Management Policies").
#[derive(Clone, Copy, Debug, PartialEq, Eq)]
pub enum Policy {
    /// One after another, each once all before it are running and ready.
    OrderedReady,
    /// All at once.
    Parallel,
}

/// How pods get a new revision (Kubernetes, "StatefulSets": "Update strategies").
#[derive(Clone, Copy, Debug, PartialEq, Eq)]
pub enum Strategy {
    /// From the largest ordinal down to the partition, one pod at a time.
    RollingUpdate { partition: u32 },
    /// When another client deletes them.
    OnDelete,
}

/// What happens to claims (Kubernetes, "StatefulSets": "PersistentVolumeClaim retention").
#[derive(Clone, Copy, Debug, PartialEq, Eq)]
pub enum Retention {
    Retain,
    Delete,
}

/// The value of `podManagementPolicy`, OrderedReady if it is missing. Another text gives none.
pub(crate) fn policy_of(found: Option<&Tree>) -> Option<Policy>
    ensures { result ≡ policy_of (option_map (λ t. data_of t.now) found.entry) }
{
    let Some(value) = found else {
        return Some(Policy::OrderedReady);
    };
    if is_word(value, "OrderedReady") {
        Some(Policy::OrderedReady)
    } else if is_word(value, "Parallel") {
        Some(Policy::Parallel)
    } else {
        None
    }
}

/// The value of `whenDeleted` or `whenScaled`, Retain if it is missing. Another text gives none.
pub(crate) fn retention_of(found: Option<&Tree>) -> Option<Retention>
    ensures { result ≡ retention_of (option_map (λ t. data_of t.now) found.entry) }
{
    let Some(value) = found else {
        return Some(Retention::Retain);
    };
    if is_word(value, "Retain") {
        Some(Retention::Retain)
    } else if is_word(value, "Delete") {
        Some(Retention::Delete)
    } else {
        None
    }
}

/// The value of `updateStrategy`, RollingUpdate from 0 on if it is missing.
pub(crate) fn strategy_of(found: Option<&Tree>) -> Option<Strategy>
    ensures { result ≡ strategy_of (option_map (λ t. data_of t.now) found.entry) }
{
    let partition = count_or(
        0,
        present(inside(inside(found, "rollingUpdate"), "partition")),
    )?;
    strategy_named(partition, present(inside(found, "type")))
}

fn strategy_named(partition: u32, found: Option<&Tree>) -> Option<Strategy>
    ensures { result ≡ strategy_named partition (option_map (λ t. data_of t.now) found.entry) }
{
    let Some(value) = found else {
        return Some(Strategy::RollingUpdate { partition });
    };
    if is_word(value, "RollingUpdate") {
        Some(Strategy::RollingUpdate { partition })
    } else if is_word(value, "OnDelete") {
        Some(Strategy::OnDelete)
    } else {
        None
    }
}
