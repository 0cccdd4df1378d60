// The listed claims of each pod of a set.
//
// A claim is called TEMPLATE-SET-ORDINAL. No decimal has a `-`, so a name that is split at its last `-` has the digits
// of an ordinal after it, and before it what it shares with all claims of its template.
ghost use Rattle.std.specs.Prelude.{◌≡◌, ◌++◌, ◌∷◌, [], ℕ, ◌<◌, ◌^◌, List, bytes_eq, codes, decimal, string_bytes, if◌then◌else◌, IfOk, OnOk};
ghost use Rattle.std.specs.List.{cons_option};
ghost use Rattle.objects.specs.PodNames.{pod_name};
ghost use Rattle.set_views.specs.Set.{set_parts};
ghost use Rattle.claims.specs.Listed.{found_in, pod_claims};
ghost use Rattle.claims.specs.Pods.{claims_in, under, with_digits};

use objects::Object;
use set_views::Set;
use std::alloc::{AllocError, Global};
use std::collections::BTreeMap;

/// A claim, preceded by what its name has after the last `-`: the digits of an ordinal, if it is a pod's.
pub(crate) type Numbered<'a> = (&'a str, &'a Object);

/// Claims under texts.
pub(crate) type Groups<'a> = BTreeMap<&'a str, Vec<Numbered<'a>>>;

/// Adds a claim to those under that text.
fn add<'a>(
    alloc: Global,
    groups: &mut Groups<'a>,
    text: &'a str,
    claim: Numbered<'a>,
) -> Result<(), AllocError>
    ensures { OnOk result ((key : List ℕ) → under groups.new key ≡ under groups.old key ++ (if bytes_eq text.now key then claim.entry ∷ [] else [])) }
{
    let mut claims = groups.remove(text).unwrap_or(Vec::new(alloc));
    claims.push(claim)?;
    groups.insert(text, claims)?;
    Ok(())
}

/// Puts a claim under what its name has before the last `-`.
fn put<'a>(
    alloc: Global,
    stems: &mut Groups<'a>,
    name: &'a str,
    claim: &'a Object,
) -> Result<(), AllocError>
    ensures { OnOk result ((stem : List ℕ) (ordinal : ℕ) → ordinal < 2 ^ 32 → with_digits (decimal ordinal) (under stems.new stem)
        ≡ with_digits (decimal ordinal) (under stems.old stem) ++ (if bytes_eq (pod_name stem ordinal) name.now then claim.now ∷ [] else [])) }
{
    if let Some((stem, digits)) = name.rsplit_once('-') {
        add(alloc, stems, stem, (digits, claim))?;
    }
    Ok(())
}

/// The claims by what their names have before the last `-`.
fn by_stem<'a>(
    alloc: Global,
    claims: &BTreeMap<&'a str, &'a Object>,
) -> Result<Groups<'a>, AllocError>
    ensures { IfOk result (λ stems. (stem : List ℕ) (ordinal : ℕ) → ordinal < 2 ^ 32
        → with_digits (decimal ordinal) (under stems stem) ≡ cons_option (found_in claims.now (pod_name stem ordinal)) []) }
{
    let mut stems = BTreeMap::new(alloc);
    for (name, claim) in claims {
        put(alloc, &mut stems, *name, *claim)?;
    }
    Ok(stems)
}

/// Adds claims, each under its digits.
fn add_all<'a>(
    alloc: Global,
    pods: &mut Groups<'a>,
    claims: &[Numbered<'a>],
) -> Result<(), AllocError>
    ensures { OnOk result ((digits : List ℕ) → claims_in (under pods.new digits) ≡ claims_in (under pods.old digits) ++ with_digits digits claims.now) }
{
    for claim in claims {
        add(alloc, pods, claim.0, *claim)?;
    }
    Ok(())
}

/// What the names of a template's claims have before the last `-`.
fn stem_of(alloc: Global, set: &Set, template: &str) -> Result<String, AllocError>
    ensures { IfOk result (λ stem. string_bytes stem ≡ template.now ++ codes "-" ++ set.now.object.key.name) }
{
    let set = set.object.key.name.as_str();
    format!(in alloc; "{template}-{set}")
}

/// Adds the claims of a template, each under its digits.
fn add_template<'a>(
    alloc: Global,
    set: &Set,
    pods: &mut Groups<'a>,
    stems: &Groups<'a>,
    template: &str,
) -> Result<(), AllocError>
    ensures { OnOk result ((digits : List ℕ) → claims_in (under pods.new digits)
        ≡ claims_in (under pods.old digits) ++ with_digits digits (under stems.now (template.now ++ codes "-" ++ set.now.object.key.name))) }
{
    let stem = stem_of(alloc, set, template)?;
    if let Some(claims) = stems.get(stem.as_str()) {
        add_all(alloc, pods, claims)?;
    }
    Ok(())
}

/// The claims of each pod under the digits of its ordinal, in the order of the set's claim templates.
pub(crate) fn by_pod<'a>(
    alloc: Global,
    set: &Set,
    claims: &BTreeMap<&'a str, &'a Object>,
) -> Result<Groups<'a>, AllocError>
    ensures { IfOk result (λ pods. (ordinal : ℕ) → ordinal < 2 ^ 32
        → claims_in (under pods (decimal ordinal)) ≡ pod_claims (set_parts set.now) (found_in claims.now) ordinal) }
{
    let stems = by_stem(alloc, claims)?;
    let mut pods = BTreeMap::new(alloc);
    for template in &set.claims {
        add_template(alloc, set, &mut pods, &stems, template.0.as_str())?;
    }
    Ok(pods)
}
