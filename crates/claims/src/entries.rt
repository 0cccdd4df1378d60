// The entries of a claim's `metadata.ownerReferences`, as they are and as they are to be.
ghost use Rattle.std.specs.Prelude.{◌≡◌, Some, map, filter, option_map, option_and_then, IfOk};
ghost use Rattle.std.specs.List.{list_all, list_any};
ghost use Rattle.serde_json.specs.Find.{as_str, get};
ghost use Rattle.objects.specs.Tree.{data_of};
ghost use Rattle.set_views.specs.Set.{set_parts};
ghost use Rattle.claims.specs.Owners.{are_wanted, is_of, is_of_pod, is_of_set, is_there, reference, reference_to, stays, wanted_entries, with_owner};

use crate::owner::Owner;
use objects::{Members, Memory, Tree, is_uid_text, uid_text};
use set_views::{Set, says};
use std::alloc::{AllocError, Global};

/// The text of a member, if the entry is a map and has it.
fn text_in<'a>(entry: &'a Tree, key: &str) -> Option<&'a str>
    ensures { option_map (λ s. s.now) result ≡ option_and_then as_str (get key.now (data_of entry.now)) }
{
    entry.as_map()?.get(key)?.as_text()
}

/// Whether the entry has the UID of the set.
fn is_of_set(set: &Set, entry: &Tree) -> bool
    ensures { result ≡ is_of_set (set_parts set.now) (data_of entry.now) }
{
    match text_in(entry, "uid") {
        Some(text) => is_uid_text(text, set.object.meta.uid),
        None => false,
    }
}

/// Whether the entry is one of a pod of that name.
fn is_of_pod(pod: &str, entry: &Tree) -> bool
    ensures { result ≡ is_of_pod pod.now (data_of entry.now) }
{
    says(entry, "kind", "Pod") && says(entry, "name", pod)
}

/// Whether the entry has the UID of that owner.
fn is_of(set: &Set, owner: &Owner, entry: &Tree) -> bool
    ensures { result ≡ is_of (set_parts set.now) owner.now (data_of entry.now) }
{
    match owner {
        Owner::Set => is_of_set(set, entry),
        Owner::Pod(uid) => says(entry, "uid", uid.as_str()),
    }
}

/// Whether a claim that is to have this owner keeps the entry.
fn stays(set: &Set, pod: &str, owner: &Option<Owner>, entry: &Tree) -> bool
    ensures { result ≡ stays (set_parts set.now) pod.now owner.now (data_of entry.now) }
{
    match owner {
        None => !is_of_set(set, entry) && !is_of_pod(pod, entry),
        Some(Owner::Set) => !is_of_pod(pod, entry),
        Some(Owner::Pod(uid)) => {
            says(entry, "uid", uid.as_str()) || (!is_of_set(set, entry) && !is_of_pod(pod, entry))
        }
    }
}

/// Whether an entry has the UID of that owner.
fn has_entry_of(set: &Set, owner: &Owner, entries: &[Tree]) -> bool
    ensures { result ≡ list_any (λ t. is_of (set_parts set.now) owner.now (data_of t)) entries.now }
{
    entries.iter().any(|entry| is_of(set, owner, entry))
}

fn all_stay(set: &Set, pod: &str, owner: &Option<Owner>, entries: &[Tree]) -> bool
    ensures { result ≡ list_all (λ t. stays (set_parts set.now) pod.now owner.now (data_of t)) entries.now }
{
    entries.iter().all(|entry| stays(set, pod, owner, entry))
}

#[tactic(auto, using(crate::proofs::OwnerEntries::any_trees))]
fn is_there(set: &Set, owner: &Option<Owner>, entries: &[Tree]) -> bool
    ensures { result ≡ is_there (set_parts set.now) owner.now (map data_of entries.now) }
{
    match owner {
        None => true,
        Some(owner) => has_entry_of(set, owner, entries),
    }
}

/// Whether these are the entries of a claim that is to have this owner.
#[tactic(auto, using(crate::proofs::OwnerEntries::all_trees))]
pub(crate) fn are_wanted(set: &Set, pod: &str, owner: &Option<Owner>, entries: &[Tree]) -> bool
    ensures { result ≡ are_wanted (set_parts set.now) pod.now owner.now (map data_of entries.now) }
{
    all_stay(set, pod, owner, entries) && is_there(set, owner, entries)
}

fn reference(
    alloc: Global,
    version: &str,
    kind: &str,
    name: &str,
    uid: &str,
) -> Result<Tree, AllocError>
    ensures { IfOk result (λ tree. data_of tree ≡ reference version.now kind.now name.now uid.now) }
{
    let entry = Members::none(alloc)?
        .with_text(alloc, "apiVersion", version)?
        .with_text(alloc, "kind", kind)?
        .with_text(alloc, "name", name)?
        .with_text(alloc, "uid", uid)?;
    Ok(Tree::Map(entry))
}

/// A new entry of the owner.
fn reference_to(alloc: Global, set: &Set, pod: &str, owner: &Owner) -> Result<Tree, Memory>
    ensures { IfOk result (λ tree. data_of tree ≡ reference_to (set_parts set.now) pod.now owner.now) }
{
    match owner {
        Owner::Set => {
            let uid = uid_text(alloc, set.object.meta.uid)?;
            Ok(reference(
                alloc,
                "apps/v1",
                "StatefulSet",
                set.object.key.name.as_str(),
                uid.as_str(),
            )?)
        }
        Owner::Pod(uid) => Ok(reference(alloc, "v1", "Pod", pod, uid.as_str())?),
    }
}

/// The entries that stay, in their order.
fn staying_entries(
    alloc: Global,
    set: &Set,
    pod: &str,
    owner: &Option<Owner>,
    entries: &[Tree],
) -> Result<Vec<Tree>, AllocError>
    ensures { IfOk result (λ kept. map data_of kept.items ≡ filter (stays (set_parts set.now) pod.now owner.now) (map data_of entries.now)) }
{
    let mut kept = Vec::new(alloc);
    for entry in entries {
        if stays(set, pod, owner, entry) {
            kept.push(entry.clone()?)?;
        }
    }
    Ok(kept)
}

/// The entries, with one of the owner at the end if none has its UID.
fn with_owner(
    alloc: Global,
    set: &Set,
    pod: &str,
    owner: &Owner,
    entries: Vec<Tree>,
) -> Result<Vec<Tree>, Memory>
    ensures { IfOk result (λ owned. map data_of owned.items ≡ with_owner (set_parts set.now) pod.now (Some owner.now) (map data_of entries.items)) }
{
    if has_entry_of(set, owner, &entries) {
        return Ok(entries);
    }
    let mut owned = entries;
    owned.push(reference_to(alloc, set, pod, owner)?)?;
    Ok(owned)
}

/// The entries of a claim that is to have this owner.
pub(crate) fn wanted_entries(
    alloc: Global,
    set: &Set,
    pod: &str,
    owner: &Option<Owner>,
    entries: &[Tree],
) -> Result<Vec<Tree>, Memory>
    ensures { IfOk result (λ owned. map data_of owned.items ≡ wanted_entries (set_parts set.now) pod.now owner.now (map data_of entries.now)) }
{
    let kept = staying_entries(alloc, set, pod, owner, entries)?;
    match owner {
        None => Ok(kept),
        Some(owner) => {
            let owned = with_owner(alloc, set, pod, owner, kept)?;
            Ok(owned)
        }
    }
}
