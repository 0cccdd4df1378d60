// The claim templates of a set.
ghost use Rattle.std.specs.Prelude.{◌≡◌, option_map, option_and_then, codes, IfOk};
ghost use Rattle.objects.specs.Names.{is_dns_label};
ghost use Rattle.objects.specs.Object.{object_at};
ghost use Rattle.objects.specs.Metadata.{text_at};
ghost use Rattle.objects.specs.Tree.{data_of, items_of};
ghost use Rattle.set_views.specs.declared.fault.PlanError.TheVariants.{BadSpec};
ghost use Rattle.set_views.specs.Steps.{Gives, guarded, required};
ghost use Rattle.set_views.specs.Claims.{are_distinct, claim_of, claims_in, claims_of, names_of};

use crate::fault::PlanError;
use objects::{Members, Text, Tree, is_dns_label};
use std::alloc::{AllocError, Global};
use std::collections::BTreeSet;

/// The templates under `volumeClaimTemplates`, each with its name; none if there is no value.
#[tactic(auto, using(crate::proofs::Chains::fails_then))]
pub(crate) fn claims_in(
    alloc: Global,
    found: Option<&Tree>,
) -> Result<Vec<(Text, Members)>, PlanError>
    ensures { Gives (λ v. v.items) result (required BadSpec (claims_in (option_map (λ t. data_of t.now) found.entry))) }
{
    let Some(value) = found else {
        return Ok(Vec::new(alloc));
    };
    let Some(items) = value.as_list() else {
        return Err(PlanError::BadSpec);
    };
    let claims = claims_of(alloc, items.as_slice())?;
    if are_distinct(alloc, &claims)? {
        Ok(claims)
    } else {
        drop(claims);
        Err(PlanError::BadSpec)
    }
}

fn claims_of(alloc: Global, items: &[Tree]) -> Result<Vec<(Text, Members)>, PlanError>
    ensures { Gives (λ v. v.items) result (required BadSpec (claims_of (items_of items.now))) }
{
    let mut claims = Vec::new(alloc);
    for item in items {
        claims.push(claim_of(alloc, item)?)?;
    }
    Ok(claims)
}

/// A claim template with its name.
#[tactic(auto, using(crate::proofs::Chains::fails_then))]
fn claim_of(alloc: Global, value: &Tree) -> Result<(Text, Members), PlanError>
    ensures { Gives (λ c. c) result (required BadSpec (claim_of (data_of value.now))) }
{
    let Some(template) = value.as_map() else {
        return Err(PlanError::BadSpec);
    };
    let Some(name) = name_in(template) else {
        return Err(PlanError::BadSpec);
    };
    let name = label_of(alloc, name)?;
    Ok((name, template.clone()?))
}

/// The name in the `metadata` of a claim template.
fn name_in(template: &Members) -> Option<&str>
    ensures { option_map (λ s. s.now) result ≡ option_and_then (text_at (codes "name")) (object_at (codes "metadata") template.now) }
{
    template.get("metadata")?.as_map()?.get("name")?.as_text()
}

/// The text, which has to be a DNS label, as the name of a StatefulSet is.
fn label_of(alloc: Global, text: &str) -> Result<Text, PlanError>
    ensures { Gives (λ t. t) result (guarded BadSpec (is_dns_label text.now) text.now) }
{
    if !is_dns_label(text) {
        return Err(PlanError::BadSpec);
    }
    Ok(Text::copy_of(alloc, text)?)
}

/// Whether no two templates have one name.
fn are_distinct(alloc: Global, claims: &[(Text, Members)]) -> Result<bool, AllocError>
    ensures { IfOk result (λ distinct. distinct ≡ are_distinct (names_of claims.now)) }
{
    let mut names = BTreeSet::new(alloc);
    for (name, _) in claims.iter().rev() {
        if !names.insert(name.as_str())? {
            return Ok(false);
        }
    }
    Ok(true)
}
