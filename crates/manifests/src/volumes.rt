// The volumes of a pod, by which it has its set's claims.
ghost use Rattle.std.specs.Prelude.{◌≡◌, ℕ, List, bytes_eq, codes, map, filter, not, option_and_then, option_map, IfOk};
ghost use Rattle.std.specs.List.{list_any};
ghost use Rattle.serde_json.specs.Data.{Members as DataMembers};
ghost use Rattle.serde_json.specs.Find.{as_str, get};
ghost use Rattle.serde_json.specs.View.{items_of as view_items};
ghost use Rattle.objects.specs.Metadata.{items_at};
ghost use Rattle.objects.specs.Tree.{data_of, items_of};
ghost use Rattle.set_views.specs.Claims.{names_of};
ghost use Rattle.set_views.specs.Set.{set_parts};
ghost use Rattle.revisions.specs.Listing.{has_name};
ghost use Rattle.manifests.specs.Arrays.{list_of};
ghost use Rattle.manifests.specs.Volumes.{claim_volume, is_replaced, other_volumes, volume_of, volumes_in, volumes_with, with_others};

use crate::claim::claim_name_of;
use objects::{Items, Members, Tree};
use set_views::Set;
use std::alloc::{AllocError, Global};
use std::collections::BTreeSet;

/// The volume of that name, which is stored in the claim of that name.
fn claim_volume(alloc: Global, name: &str, claim: &str) -> Result<Tree, AllocError>
    ensures { IfOk result (λ volume. data_of volume ≡ claim_volume name.now claim.now) }
{
    let source = Members::none(alloc)?.with_text(alloc, "claimName", claim)?;
    let stored = Members::none(alloc)?.with("persistentVolumeClaim", Some(Tree::Map(source)))?;
    let volume = stored.with_text(alloc, "name", name)?;
    Ok(Tree::Map(volume))
}

/// The volume of the claim template of that name.
fn volume_of(alloc: Global, set: &Set, ordinal: u32, name: &str) -> Result<Tree, AllocError>
    ensures { IfOk result (λ volume. (template : DataMembers) → data_of volume ≡ volume_of (set_parts set.now) ordinal (name.now, template)) }
{
    let claim = claim_name_of(alloc, set, name, ordinal)?;
    claim_volume(alloc, name, claim.as_str())
}

/// A volume for each claim template, in order.
fn claim_volumes(alloc: Global, set: &Set, ordinal: u32) -> Result<Vec<Tree>, AllocError>
    ensures { IfOk result (λ volumes. map data_of volumes.items ≡ map (volume_of (set_parts set.now) ordinal) set.now.claims.items) }
{
    let mut volumes = Vec::new(alloc);
    for (name, _) in &set.claims {
        volumes.push(volume_of(alloc, set, ordinal, name.as_str())?)?;
    }
    Ok(volumes)
}

/// The names of the set's claim templates.
fn names_of(alloc: Global, set: &Set) -> Result<BTreeSet<&str>, AllocError>
    ensures { IfOk result (λ names. (q : List ℕ) → has_name q names.keys ≡ list_any (bytes_eq q) (names_of set.now.claims.items)) }
{
    let mut names = BTreeSet::new(alloc);
    for (name, _) in &set.claims {
        names.insert(name.as_str())?;
    }
    Ok(names)
}

/// The name of the volume, if it is a map and has one.
fn name_in(volume: &Tree) -> Option<&str>
    ensures { option_map (λ s. s.now) result ≡ option_and_then as_str (get (codes "name") (data_of volume.now)) }
{
    volume.as_map()?.get("name")?.as_text()
}

/// Whether the volume has the name of a claim template of the set, whose names these are.
fn is_replaced(set: &Set, names: &BTreeSet<&str>, volume: &Tree) -> bool
    requires { (q : List ℕ) → has_name q names.now.keys ≡ list_any (bytes_eq q) (names_of set.now.claims.items) }
    ensures { result ≡ is_replaced (set_parts set.now) (data_of volume.now) }
{
    match name_in(volume) {
        Some(name) => names.contains(name),
        None => false,
    }
}

/// Those of these volumes that have no name of a claim template.
fn volumes_not_replaced(
    alloc: Global,
    set: &Set,
    names: &BTreeSet<&str>,
    given: &[Tree],
) -> Result<Vec<Tree>, AllocError>
    requires { (q : List ℕ) → has_name q names.now.keys ≡ list_any (bytes_eq q) (names_of set.now.claims.items) }
    ensures { IfOk result (λ others. map data_of others.items ≡ filter (λ d. not (is_replaced (set_parts set.now) d)) (map data_of given.now)) }
{
    let mut others = Vec::new(alloc);
    for volume in given {
        if !is_replaced(set, names, volume) {
            others.push(volume.clone()?)?;
        }
    }
    Ok(others)
}

fn list_at<'a>(members: &'a Members, key: &str) -> Option<&'a Items>
    ensures { option_map (λ items. items.now) result ≡ items_at key.now members.now }
{
    members.get(key)?.as_list()
}

/// The volumes of a pod's spec. A value that is no list counts as missing.
fn volumes_in(spec: &Members) -> &[Tree]
    ensures { items_of result.now ≡ volumes_in spec.now }
{
    match list_at(spec, "volumes") {
        Some(volumes) => volumes.as_slice(),
        None => &[],
    }
}

/// Those of the spec's volumes that have no name of a claim template.
pub(crate) fn other_volumes(alloc: Global, set: &Set, spec: &Members) -> Result<Items, AllocError>
    ensures { IfOk result (λ others. others ≡ view_items (other_volumes (set_parts set.now) spec.now)) }
{
    let names = names_of(alloc, set)?;
    let others = volumes_not_replaced(alloc, set, &names, volumes_in(spec))?;
    drop(names);
    let items = Items::of(alloc, others)?;
    Ok(items)
}

/// The volumes of a set's pod, of which these are the template's own.
fn volumes_with(
    alloc: Global,
    set: &Set,
    ordinal: u32,
    others: &[Tree],
) -> Result<Vec<Tree>, AllocError>
    ensures { IfOk result (λ volumes. map data_of volumes.items ≡ volumes_with (set_parts set.now) ordinal (map data_of others.now)) }
{
    let mut volumes = claim_volumes(alloc, set, ordinal)?;
    for volume in others {
        volumes.push(volume.clone()?)?;
    }
    Ok(volumes)
}

/// The spec of a pod with the volumes of its set's claims, if the set has claim templates: one for each of them, in
/// order, and then these, which are the template's own of other names.
pub(crate) fn with_others(
    alloc: Global,
    set: &Set,
    ordinal: u32,
    others: &Items,
    spec: Members,
) -> Result<Members, AllocError>
    ensures { IfOk result (λ ms. ms ≡ with_others (set_parts set.now) ordinal (list_of others.now) spec) }
{
    if set.claims.is_empty() {
        return Ok(spec);
    }
    let volumes = volumes_with(alloc, set, ordinal, others.as_slice())?;
    let items = Items::of(alloc, volumes)?;
    let whole = spec.with("volumes", Some(Tree::List(items)))?;
    Ok(whole)
}
