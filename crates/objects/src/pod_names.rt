ghost use Rattle.std.specs.Prelude.{◌≡◌, ℕ, ◌^◌, ◌<◌, List, IfOk, IfSome, IfNone, string_bytes};
ghost use Rattle.objects.specs.PodNames.{pod_name, claim_name, IsPodName};

use std::alloc::Global;
use trees::Memory;

// The largest ordinal, since the API's integers have 32 bits with a sign.
const MAX_ORDINAL: u32 = 2_147_483_647;

/// The name of a set's pod, `SET-ORDINAL`, the ordinal in decimal (Kubernetes, "StatefulSets": "Pod Identity").
pub fn pod_name(alloc: Global, set: &str, ordinal: u32) -> Result<String, Memory>
    ensures { IfOk result (λ name. string_bytes name ≡ pod_name set.now ordinal) }
{
    Ok(format!(in alloc; "{set}-{ordinal}")?)
}

/// The name of the claim that a volume claim template makes for a set's pod, `TEMPLATE-SET-ORDINAL` (Kubernetes,
/// "StatefulSets": "Stable Storage"). Claims of two sets may share a name: the template `a` of the set `b-c` and the
/// template `a-b` of the set `c` both make `a-b-c-0`.
pub fn claim_name(alloc: Global, template: &str, set: &str, ordinal: u32) -> Result<String, Memory>
    ensures { IfOk result (λ name. string_bytes name ≡ claim_name template.now set.now ordinal) }
{
    Ok(format!(in alloc; "{template}-{set}-{ordinal}")?)
}

/// The set and the ordinal of a pod's name, split at its last `-`: `web-1-0` gives `web-1` and 0. `None` unless the set
/// has a byte and the ordinal is a decimal without sign or leading zeros, of at most 2147483647.
pub fn split_pod_name(name: &str) -> Option<(&str, u32)>
    ensures some { IfSome result (λ split. IsPodName name.now split.0.now split.1) }
    ensures none { IfNone result ((set : List ℕ) (ordinal : ℕ) → IsPodName name.now set ordinal → ⊥) }
{
    let (set, digits) = name.rsplit_once('-')?;
    let ordinal = digits.parse().ok()?;
    if set.is_empty() || MAX_ORDINAL < ordinal || digits != itoa::Buffer::new().format(ordinal) {
        return None;
    }
    Some((set, ordinal))
}

/// Pods of two sets, or with two ordinals below 2^32, as `pod_name` has them, have two names.
pub fn pod_names_differ()
    ensures { (s t : List ℕ) (i j : ℕ) → i < 2 ^ 32 → j < 2 ^ 32 → pod_name s i ≡ pod_name t j → (s ≡ t) × (i ≡ j) }
{}

/// Claims of one set, by two templates or for two pods, have two names.
pub fn claim_names_of_a_set_differ()
    ensures { (s t u : List ℕ) (i j : ℕ) → i < 2 ^ 32 → j < 2 ^ 32 → claim_name t s i ≡ claim_name u s j → (t ≡ u) × (i ≡ j) }
{}
