// The changes of a pod's claims.
ghost use Rattle.std.specs.Prelude.{◌≡◌, ◌++◌, ◌≤◌, ◌<◌, true, [], map, length, string_bytes, take, option_map, IfOk, OnOk};
ghost use Rattle.std.specs.List.{cons_option, filter_map};
ghost use Rattle.objects.specs.MetadataShape.{are_owners};
ghost use Rattle.objects.specs.Names.{is_dns_label};
ghost use Rattle.objects.specs.PodNames.{claim_name, pod_name};
ghost use Rattle.objects.specs.Tree.{data_of, items_of};
ghost use Rattle.set_views.specs.Set.{set_parts};
ghost use Rattle.set_views.specs.Steps.{Gives};
ghost use Rattle.claims.specs.Listed.{IsFor, claim_named};
ghost use Rattle.claims.specs.Changes.{all_creates_and_updates, all_updates, create, make_first_claims, items_if_any, keep_claims, create_or_update, release_claims, update, with_owner_entries};

use crate::entries::{are_wanted, wanted_entries};
use crate::listed::ListedClaims;
use crate::owner::{Owner, owner_in_range, owner_of_condemned};
use crate::pods::Numbered;
use manifests::claim_of;
use objects::{Items, MAX_LABEL, Members, Memory, Object, Text, Tree, claim_name, pod_name};
use set_views::{PlanError, Set};
use std::alloc::{AllocError, Global};

/// What a plan does to a claim.
#[derive(Drop)]
pub enum ClaimChange {
    Create(Object),
    /// The claim as it was read, with other `metadata.ownerReferences`.
    Update(Object),
}

/// Owner references as a claim has them, left out if there are none.
fn items_if_any(alloc: Global, entries: Vec<Tree>) -> Result<Option<Items>, AllocError>
    ensures { IfOk result (λ items. items ≡ items_if_any (map data_of entries.items)) }
{
    if entries.is_empty() {
        drop(entries);
        return Ok(None);
    }
    let items = Items::of(alloc, entries)?;
    Ok(Some(items))
}

/// The claim with these owner references.
fn with_owner_entries(
    alloc: Global,
    claim: &Object,
    entries: Vec<Tree>,
) -> Result<Object, AllocError>
    requires { are_owners (items_of entries.items) ≡ true }
    ensures { IfOk result (λ object. object ≡ with_owner_entries claim.now (map data_of entries.items)) }
{
    let items = items_if_any(alloc, entries)?;
    let copy = claim.clone()?;
    let object = copy.with_owners(items)?;
    Ok(object)
}

/// The update of a claim of that pod, if it is to have other entries than it has.
fn update(
    alloc: Global,
    set: &Set,
    pod: &str,
    owner: &Option<Owner>,
    claim: &Object,
) -> Result<Option<ClaimChange>, Memory>
    ensures { IfOk result (λ change. change ≡ update (set_parts set.now) pod.now owner.now claim.now) }
{
    let entries = claim.owners();
    if are_wanted(set, pod, owner, entries) {
        return Ok(None);
    }
    let others = wanted_entries(alloc, set, pod, owner, entries)?;
    let object = with_owner_entries(alloc, claim, others)?;
    Ok(Some(ClaimChange::Update(object)))
}

/// The create of a template's claim for the pod of that ordinal and name.
fn create(
    alloc: Global,
    set: &Set,
    ordinal: u32,
    pod: &str,
    template: &(Text, Members),
) -> Result<ClaimChange, Memory>
    requires named { pod.now ≡ pod_name set.now.object.key.name ordinal }
    requires short { length pod.now ≤ 63 }
    requires label { is_dns_label template.now.0 ≡ true }
    ensures { IfOk result (λ change. change ≡ create (set_parts set.now) ordinal template.now) }
{
    let (name, members) = template;
    let owner = owner_in_range(set);
    let entries = wanted_entries(alloc, set, pod, &owner, &[])?;
    drop(owner);
    let items = Items::of(alloc, entries)?;
    let claim = claim_of(alloc, set, name.as_str(), members, ordinal, items)?;
    Ok(ClaimChange::Create(claim))
}

/// What is done to the claim of a template for the pod of that ordinal and name, when that pod is created.
fn create_or_update(
    alloc: Global,
    set: &Set,
    ordinal: u32,
    pod: &str,
    template: &(Text, Members),
    found: Option<&Object>,
) -> Result<Option<ClaimChange>, Memory>
    requires named { pod.now ≡ pod_name set.now.object.key.name ordinal }
    requires short { length pod.now ≤ 63 }
    requires label { is_dns_label template.now.0 ≡ true }
    ensures { IfOk result (λ change. change ≡ create_or_update (set_parts set.now) ordinal template.now (option_map (λ o. o.now) found.entry)) }
{
    match found {
        None => {
            let change = create(alloc, set, ordinal, pod, template)?;
            Ok(Some(change))
        }
        Some(claim) => {
            let owner = owner_in_range(set);
            let change = update(alloc, set, pod, &owner, claim)?;
            drop(owner);
            Ok(change)
        }
    }
}

/// The name of the pod of that ordinal.
fn pod_of(alloc: Global, set: &Set, ordinal: u32) -> Result<String, Memory>
    ensures { IfOk result (λ pod. string_bytes pod ≡ pod_name set.now.object.key.name ordinal) }
{
    pod_name(alloc, set.object.key.name.as_str(), ordinal)
}

/// The claim of the template of that name for the pod of that ordinal.
fn listed_at<'a>(
    alloc: Global,
    set: &Set,
    listed: &ListedClaims<'a>,
    ordinal: u32,
    name: &str,
) -> Result<Option<&'a Object>, Memory>
    ensures { IfOk result (λ found. option_map (λ o. o.now) found ≡ claim_named listed.now (claim_name name.now set.now.object.key.name ordinal)) }
{
    let full = claim_name(alloc, name, set.object.key.name.as_str(), ordinal)?;
    Ok(listed.get(full.as_str()))
}

/// Adds the change, if there is one.
fn push_some(changes: &mut Vec<ClaimChange>, change: Option<ClaimChange>) -> Result<(), AllocError>
    ensures { OnOk result (changes.new.items ≡ changes.old.items ++ cons_option change []) }
{
    if let Some(change) = change {
        changes.push(change)?;
    }
    Ok(())
}

#[tactic(auto, using(crate::proofs::ChangeLists::few))]
fn all_creates_and_updates(
    alloc: Global,
    set: &Set,
    listed: &ListedClaims<'_>,
    ordinal: u32,
    pod: &str,
    most: usize,
) -> Result<Vec<ClaimChange>, Memory>
    requires named { pod.now ≡ pod_name set.now.object.key.name ordinal }
    requires short { length pod.now ≤ 63 }
    ensures { IfOk result (λ changes. changes.items ≡ take most (all_creates_and_updates (set_parts set.now) (claim_named listed.now) ordinal set.now.claims.items)) }
{
    let mut changes = Vec::new(alloc);
    for template in &set.claims {
        if changes.len() == most {
            return Ok(changes);
        }
        let found = listed_at(alloc, set, listed, ordinal, template.0.as_str())?;
        let change = create_or_update(alloc, set, ordinal, pod, template, found)?;
        push_some(&mut changes, change)?;
    }
    Ok(changes)
}

/// The updates of these claims of that pod, which are to have this owner.
fn all_updates(
    alloc: Global,
    set: &Set,
    claims: &[Numbered<'_>],
    pod: &str,
    owner: &Option<Owner>,
) -> Result<Vec<ClaimChange>, Memory>
    ensures { IfOk result (λ changes. changes.items ≡ filter_map (λ c. update (set_parts set.now) pod.now owner.now c.1.now) claims.now) }
{
    let mut changes = Vec::new(alloc);
    for claim in claims {
        let change = update(alloc, set, pod, owner, claim.1)?;
        push_some(&mut changes, change)?;
    }
    Ok(changes)
}

/// The updates of the claims of the pod of that ordinal, which are to have this owner.
fn updates(
    alloc: Global,
    set: &Set,
    listed: &ListedClaims<'_>,
    ordinal: u32,
    owner: &Option<Owner>,
) -> Result<Vec<ClaimChange>, Memory>
    requires { IsFor (set_parts set.now) listed.now }
    ensures { IfOk result (λ changes. changes.items ≡ all_updates (set_parts set.now) (claim_named listed.now) ordinal owner.now set.now.claims.items) }
{
    let Some(claims) = listed.of_pod(ordinal) else {
        return Ok(Vec::new(alloc));
    };
    let pod = pod_of(alloc, set, ordinal)?;
    let changes = all_updates(alloc, set, claims, pod.as_str(), owner)?;
    Ok(changes)
}

/// The changes of the claims of a pod of the set that is then created, in the order of the set's claim templates: the
/// creates of those that are missing, and the updates of those that are there and are to have other owners (Kubernetes,
/// "StatefulSets": "Stable Storage", "PersistentVolumeClaim retention"). Under `whenDeleted` Delete the set is an
/// owner, and else it is none. No pod of that name is an owner. All other owners stay. If there are more than `most`
/// changes, only the first `most` are made.
///
/// It is NameTooLong if the pod's own name has more than 63 bytes, as `pod_of` is.
pub fn make_claims(
    alloc: Global,
    set: &Set,
    listed: &ListedClaims<'_>,
    ordinal: u32,
    most: usize,
) -> Result<Vec<ClaimChange>, PlanError>
    ensures { Gives (λ changes. changes.items) result (make_first_claims (set_parts set.now) (claim_named listed.now) ordinal most) }
{
    let pod = pod_of(alloc, set, ordinal)?;
    if MAX_LABEL < pod.as_str().len() {
        drop(pod);
        return Err(PlanError::NameTooLong);
    }
    let changes = all_creates_and_updates(alloc, set, listed, ordinal, pod.as_str(), most)?;
    Ok(changes)
}

/// The updates of the claims of a healthy pod, which are to have the same owners as those of a pod that is created. The
/// list is for this set. No template is looked up of which the pod has no claim.
pub fn keep_claims(
    alloc: Global,
    set: &Set,
    listed: &ListedClaims<'_>,
    ordinal: u32,
) -> Result<Vec<ClaimChange>, Memory>
    requires { IsFor (set_parts set.now) listed.now }
    ensures { IfOk result (λ changes. changes.items ≡ keep_claims (set_parts set.now) (claim_named listed.now) ordinal) }
{
    let owner = owner_in_range(set);
    let changes = updates(alloc, set, listed, ordinal, &owner)?;
    Ok(changes)
}

/// The updates of the claims of a condemned pod with that UID, 0 if none was read, which is then deleted. Under
/// `whenScaled` Delete the pod is an owner and the set is none, so that the claims are deleted with the pod. Under
/// Retain they are to have the owners of a pod in range. The list is for this set.
pub fn release_claims(
    alloc: Global,
    set: &Set,
    listed: &ListedClaims<'_>,
    ordinal: u32,
    uid: u64,
) -> Result<Vec<ClaimChange>, Memory>
    requires { IsFor (set_parts set.now) listed.now }
    ensures { IfOk result (λ changes. changes.items ≡ release_claims (set_parts set.now) (claim_named listed.now) ordinal uid) }
{
    let owner = owner_of_condemned(alloc, set, uid)?;
    let changes = updates(alloc, set, listed, ordinal, &owner)?;
    Ok(changes)
}
