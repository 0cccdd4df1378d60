// The claims that a plan creates.
ghost use Rattle.std.specs.Prelude.{◌≡◌, ◌≤◌, length, true, option_map, string_bytes, IfOk};
ghost use Rattle.objects.specs.declared.kind.Kind.TheVariants.{PersistentVolumeClaim};
ghost use Rattle.objects.specs.Key.{is_key, key_parts};
ghost use Rattle.objects.specs.MetadataShape.{are_owners};
ghost use Rattle.objects.specs.Names.{is_dns_label};
ghost use Rattle.objects.specs.PodNames.{claim_name, pod_name};
ghost use Rattle.objects.specs.Tree.{data_of};
ghost use Rattle.set_views.specs.Set.{set_parts};
ghost use Rattle.manifests.specs.BuiltClaim.{built_claim, claim_members, claim_metadata, labels_if_any, match_labels, owners_if_any, selector_of};

use crate::members::{part, part_in, with_all};
use crate::template::{labels_in, texts_in};
use objects::{Items, Key, Kind, Members, Object, ReadError, Tree, claim_name};
use set_views::Set;
use std::alloc::{AllocError, Global};

/// The name of the claim that the claim template of that name makes for the pod of that ordinal.
pub(crate) fn claim_name_of(
    alloc: Global,
    set: &Set,
    name: &str,
    ordinal: u32,
) -> Result<String, AllocError>
    ensures name { IfOk result (λ claim. string_bytes claim ≡ claim_name name.now set.now.object.key.name ordinal) }
    ensures valid { is_key set.now.object.key ≡ true }
{
    match claim_name(alloc, name, set.object.key.name.as_str(), ordinal) {
        Ok(claim) => Ok(claim),
        Err(_) => Err(AllocError),
    }
}

/// The set's selector, if it is a map.
fn selector_of(set: &Set) -> Option<&Members>
    ensures { option_map (λ m. m.now) result ≡ selector_of (set_parts set.now) }
{
    set.object
        .member("spec")?
        .as_map()?
        .get("selector")?
        .as_map()
}

/// The labels by which the set recognizes its pods.
fn match_labels(alloc: Global, set: &Set) -> Result<Members, AllocError>
    ensures { IfOk result (λ labels. labels ≡ match_labels (set_parts set.now)) }
{
    match selector_of(set) {
        Some(selector) => texts_in(alloc, selector, "matchLabels"),
        None => Members::none(alloc),
    }
}

/// Labels, left out if there are none.
fn labels_if_any(labels: Members) -> Option<Tree>
    ensures { option_map data_of result ≡ labels_if_any labels }
{
    if labels.entries().is_empty() {
        drop(labels);
        return None;
    }
    Some(Tree::Map(labels))
}

/// Owners, left out if there are none.
fn owners_if_any(owners: Items) -> Option<Tree>
    ensures { option_map data_of result ≡ owners_if_any owners }
{
    if owners.as_slice().is_empty() {
        drop(owners);
        return None;
    }
    Some(Tree::List(owners))
}

/// The metadata of a claim, except its name and namespace, over that of the template.
fn claim_metadata(
    alloc: Global,
    set: &Set,
    owners: Items,
    metadata: &Members,
) -> Result<Members, AllocError>
    ensures { IfOk result (λ ms. ms ≡ claim_metadata (set_parts set.now) owners metadata.now) }
{
    let owned = Members::none(alloc)?.with_some("ownerReferences", owners_if_any(owners))?;
    let selected = match_labels(alloc, set)?;
    let own = labels_in(alloc, metadata)?;
    let labels = with_all(alloc, &own, &selected)?;
    drop(selected);
    drop(own);
    let labelled = owned.with_some("labels", labels_if_any(labels))?;
    labelled.with_some("annotations", part_in(metadata, "annotations")?)
}

/// The members of a claim except its metadata.
fn claim_members(alloc: Global, template: &Members) -> Result<Members, AllocError>
    ensures { IfOk result (λ ms. ms ≡ claim_members template.now) }
{
    Members::none(alloc)?.with_some("spec", part_in(template, "spec")?)
}

fn claim_key(alloc: Global, set: &Set, name: &str) -> Result<Key, AllocError>
    requires { is_key (key_parts PersistentVolumeClaim set.now.object.key.namespace name.now) ≡ true }
    ensures { IfOk result (λ key. key ≡ key_parts PersistentVolumeClaim set.now.object.key.namespace name.now) }
{
    match Key::of(
        alloc,
        Kind::PersistentVolumeClaim,
        set.object.key.namespace.as_str(),
        name,
    ) {
        Ok(key) => Ok(key),
        Err(ReadError::Memory) => Err(AllocError),
        // The caller knows that the name makes a key, so only memory can run out.
        Err(_) => unreachable!(),
    }
}

/// The PersistentVolumeClaim that the claim template of that name makes for the pod of that ordinal, whose own name has
/// at most 63 bytes, with these owners (Kubernetes, "StatefulSets": "Stable Storage"). It has the template's
/// annotations and spec, and the template's labels with the `matchLabels` of the set's selector put over them; labels
/// and owners are left out if there are none. A part of the template that is of the wrong type counts as missing:
/// `metadata`, `annotations` and `spec` are maps, `labels` and `matchLabels` maps of texts.
#[tactic(auto, unfolding(crate::specs::BuiltClaim::built_claim))]
pub fn claim_of(
    alloc: Global,
    set: &Set,
    name: &str,
    template: &Members,
    ordinal: u32,
    owners: Items,
) -> Result<Object, AllocError>
    requires label { is_dns_label name.now ≡ true }
    requires short { length (pod_name set.now.object.key.name ordinal) ≤ 63 }
    requires owners { are_owners owners ≡ true }
    ensures { IfOk result (λ claim. claim ≡ built_claim (set_parts set.now) ordinal owners (name.now, template.now)) }
{
    let full = claim_name_of(alloc, set, name, ordinal)?;
    let given = part(alloc, template, "metadata")?;
    let metadata = claim_metadata(alloc, set, owners, &given)?;
    drop(given);
    let members = claim_members(alloc, template)?;
    let key = claim_key(alloc, set, full.as_str())?;
    let claim = Object::of(alloc, key, metadata, members)?;
    Ok(claim)
}
