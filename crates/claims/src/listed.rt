// The claims that were listed, by their names.
ghost use Rattle.std.specs.Prelude.{◌≡◌, ◌&&◌, ℕ, ◌<◌, [], List, Some, bytes_eq, option_map, if◌then◌else◌, IfOk, OnOk};
ghost use Rattle.std.specs.Option.{option_map_or};
ghost use Rattle.objects.specs.declared.kind.Kind.TheVariants.{PersistentVolumeClaim};
ghost use Rattle.set_views.specs.Set.{set_parts};
ghost use Rattle.set_views.specs.Predicates.{in_namespace};
ghost use Rattle.claims.specs.Listed.{IsFor, claim_named, claims_of, found_in, listed_claim};
ghost use Rattle.claims.specs.Pods.{claims_in};

use crate::pods::{Groups, Numbered, by_pod};
use objects::{Kind, Object};
use set_views::Set;
use std::alloc::{AllocError, Global};
use std::collections::BTreeMap;

/// The claims of a set's namespace by their names, and those of each of its pods, found once for a plan. It borrows the
/// listed objects.
#[derive(Drop)]
pub struct ListedClaims<'a> {
    by_name: BTreeMap<&'a str, &'a Object>,
    by_pod: Groups<'a>,
}

fn name_of(object: &Object) -> &str
    ensures { result.now ≡ object.now.key.name }
{
    object.key.name.as_str()
}

/// Puts the object under its name, if it is a claim of the set's namespace.
fn put_claim<'a>(
    claims: &mut BTreeMap<&'a str, &'a Object>,
    set: &Set,
    object: &'a Object,
) -> Result<(), AllocError>
    ensures { OnOk result ((name : List ℕ) → found_in claims.new name
        ≡ (if in_namespace (set_parts set.now) PersistentVolumeClaim object.now && bytes_eq object.now.key.name name then Some object.now else found_in claims.old name)) }
{
    if set.has_in_namespace(Kind::PersistentVolumeClaim, object) {
        claims.insert(name_of(object), object)?;
    }
    Ok(())
}

fn by_name<'a>(
    alloc: Global,
    set: &Set,
    objects: &'a [Object],
) -> Result<BTreeMap<&'a str, &'a Object>, AllocError>
    ensures { IfOk result (λ claims. (name : List ℕ) → found_in claims name ≡ listed_claim (set_parts set.now) objects.now name) }
{
    let mut claims = BTreeMap::new(alloc);
    // From the last to the first, as a later insert replaces: of one name the first object stays.
    for object in objects.iter().rev() {
        put_claim(&mut claims, set, object)?;
    }
    Ok(claims)
}

impl<'a> ListedClaims<'a> {
    /// The claims among these objects, for the plan of this set. Objects of other kinds and namespaces are ignored; of
    /// several claims with one name the first counts. The claims of each pod of the set are found too, in the order of
    /// the set's claim templates.
    pub fn of(
        alloc: Global,
        set: &Set,
        objects: &'a [Object],
    ) -> Result<ListedClaims<'a>, AllocError>
        ensures named { IfOk result (λ claims. claim_named claims ≡ listed_claim (set_parts set.now) objects.now) }
        ensures of_set { IfOk result (λ claims. IsFor (set_parts set.now) claims) }
    {
        let by_name = by_name(alloc, set, objects)?;
        let by_pod = by_pod(alloc, set, &by_name)?;
        Ok(ListedClaims { by_name, by_pod })
    }

    /// The claim of that name.
    #[tactic(auto, unfolding(crate::specs::Listed::claim_named))]
    pub fn get(&self, name: &str) -> Option<&'a Object>
        ensures { option_map (λ o. o.now) result ≡ claim_named self.now name.now }
    {
        self.by_name.get(name).copied()
    }

    /// The claims of the pod of that ordinal, in the order of the claim templates of the set that the list is for.
    #[tactic(auto, unfolding(crate::specs::Listed::claims_of))]
    pub(crate) fn of_pod(&self, ordinal: u32) -> Option<&[Numbered<'a>]>
        ensures { claims_in (option_map_or (λ c. c.now) result []) ≡ claims_of self.now ordinal }
    {
        let mut digits = itoa::Buffer::new();
        let claims = self.by_pod.get(digits.format(ordinal))?;
        Some(claims)
    }
}
