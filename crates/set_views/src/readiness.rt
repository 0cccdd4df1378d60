// How ready a pod is, by its `status`.
ghost use Rattle.std.specs.Prelude.{◌≡◌, false, option_map, option_and_then};
ghost use Rattle.std.specs.Option.{option_map_or};
ghost use Rattle.serde_json.specs.Find.{as_array};
ghost use Rattle.objects.specs.Tree.{data_of, items_of};
ghost use Rattle.set_views.specs.Readiness.{says, is_word, are_ready, readiness_with, readiness_of};

use crate::values::{inside, is_word};
use objects::{Object, Tree};

/// How ready a pod is (Kubernetes, "Pod Lifecycle"). It is one of these at a time, so a pod that failed is never ready
/// too.
#[derive(Clone, Copy, Debug, PartialEq, Eq)]
pub enum Readiness {
    /// Its phase is `Running`, and its condition `Ready` is true.
    Ready,
    /// It has neither ended nor become ready.
    NotReady,
    /// It has ended: its phase is `Failed` or `Succeeded`.
    Failed,
}

/// Whether the value is a map, and its member of that key is this text. It takes no memory.
pub fn says(value: &Tree, key: &str, word: &str) -> bool
    ensures { result ≡ says key.now word.now (data_of value.now) }
{
    match inside(Some(value), key) {
        Some(found) => is_word(found, word),
        None => false,
    }
}

/// Whether the first of these conditions that is of type `Ready` is true.
fn are_ready(conditions: &[Tree]) -> bool
    ensures { result ≡ are_ready (items_of conditions.now) }
{
    for condition in conditions {
        if says(condition, "type", "Ready") {
            return says(condition, "status", "True");
        }
    }
    false
}

/// Whether there is a value, and it is this text.
fn has_word(found: Option<&Tree>, word: &str) -> bool
    ensures { result ≡ is_word word.now (option_map (λ t. data_of t.now) found.entry) }
{
    match found {
        Some(value) => is_word(value, word),
        None => false,
    }
}

fn has_ready_condition(found: Option<&Tree>) -> bool
    ensures { result ≡ option_map_or are_ready (option_and_then as_array (option_map (λ t. data_of t.now) found.entry)) false }
{
    let Some(value) = found else {
        return false;
    };
    match value.as_list() {
        Some(conditions) => are_ready(conditions.as_slice()),
        None => false,
    }
}

fn readiness_with(phase: Option<&Tree>, conditions: Option<&Tree>) -> Readiness
    ensures { result ≡ readiness_with (option_map (λ t. data_of t.now) phase.entry) (option_map (λ t. data_of t.now) conditions.entry) }
{
    if has_word(phase, "Failed") || has_word(phase, "Succeeded") {
        Readiness::Failed
    } else if has_word(phase, "Running") && has_ready_condition(conditions) {
        Readiness::Ready
    } else {
        Readiness::NotReady
    }
}

#[tactic(auto, unfolding(crate::specs::Readiness::readiness_of))]
pub(crate) fn readiness_of(pod: &Object) -> Readiness
    ensures { result ≡ readiness_of pod.now.body }
{
    let status = pod.member("status");
    readiness_with(inside(status, "phase"), inside(status, "conditions"))
}
