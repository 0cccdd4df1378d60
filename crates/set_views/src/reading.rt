// The reading of a set.
ghost use Rattle.std.specs.Prelude.{◌≡◌, ◌<◌, ◌^◌, true, option_map, IfSome, IfOk};
ghost use Rattle.objects.specs.Tree.{data_of};
ghost use Rattle.set_views.specs.Claims.{are_labelled};
ghost use Rattle.set_views.specs.Set.{set_parts};
ghost use Rattle.set_views.specs.Specified.{start_of, counts_in, choices_in, specified_in, specified_parts};
ghost use Rattle.objects.specs.Reading.{unless_empty};
ghost use Rattle.set_views.specs.SetReading.{set_of, set_with, range_fits};
ghost use Rattle.set_views.specs.Steps.{Gives};

use crate::claims::claims_in;
use crate::fault::PlanError;
use crate::policies::{Policy, Retention, Strategy, policy_of, retention_of, strategy_of};
use crate::set::Set;
use crate::values::{MAX_COUNT, count_or, inside, present, text_in};
use objects::{Members, Object, Text, Tree};
use std::alloc::{AllocError, Global};

// The numbers of a set.
#[derive(Clone, Copy)]
struct Counts {
    start: u32,
    replicas: u32,
    history_limit: u32,
    collisions: u32,
}

// The policies of a set.
#[derive(Clone, Copy)]
struct Choices {
    policy: Policy,
    strategy: Strategy,
    when_deleted: Retention,
    when_scaled: Retention,
}

// What `spec` and `status` say, except the claims.
#[derive(Clone, Copy)]
struct Specified<'a> {
    spec: &'a Members,
    template: &'a Members,
    counts: Counts,
    choices: Choices,
}

fn start_of(found: Option<&Tree>) -> Option<u32>
    ensures value { result ≡ start_of (option_map (λ t. data_of t.now) found.entry) }
    ensures small { IfSome result (λ start. start < 2 ^ 31) }
{
    match found {
        None => Some(0),
        Some(ordinals) => count_or(0, present(ordinals.as_map()?.get("start"))),
    }
}

#[tactic(auto, unfolding(crate::specs::Specified::counts_in))]
fn counts_in(spec: &Members, status: Option<&Tree>) -> Option<Counts>
    ensures value { result ≡ counts_in spec.now (option_map (λ t. data_of t.now) status.entry) }
    ensures start { IfSome result (λ counts. counts.start < 2 ^ 31) }
    ensures collisions { IfSome result (λ counts. counts.collisions < 2 ^ 31) }
{
    let start = start_of(present(spec.get("ordinals")))?;
    let replicas = count_or(1, present(spec.get("replicas")))?;
    let history_limit = count_or(10, present(spec.get("revisionHistoryLimit")))?;
    let collisions = count_or(0, present(inside(status, "collisionCount")))?;
    Some(Counts {
        start,
        replicas,
        history_limit,
        collisions,
    })
}

#[tactic(auto, unfolding(crate::specs::Specified::choices_in))]
fn choices_in(spec: &Members) -> Option<Choices>
    ensures { result ≡ choices_in spec.now }
{
    let policy = policy_of(present(spec.get("podManagementPolicy")))?;
    let strategy = strategy_of(present(spec.get("updateStrategy")))?;
    let retention = present(spec.get("persistentVolumeClaimRetentionPolicy"));
    let when_deleted = retention_of(present(inside(retention, "whenDeleted")))?;
    let when_scaled = retention_of(present(inside(retention, "whenScaled")))?;
    Some(Choices {
        policy,
        strategy,
        when_deleted,
        when_scaled,
    })
}

/// What the set says of its pods, except the claims. None if a part is not valid.
#[tactic(auto, unfolding(crate::specs::Specified::specified_in))]
fn specified_in(object: &Object) -> Option<Specified<'_>>
    ensures value { option_map specified_parts result ≡ specified_in object.now }
    ensures named { IfSome result (λ _. 0 < object.now.meta.uid) }
    ensures start { IfSome result (λ specified. specified.counts.start < 2 ^ 31) }
    ensures collisions { IfSome result (λ specified. specified.counts.collisions < 2 ^ 31) }
{
    let spec = object.member("spec")?.as_map()?;
    let template = spec.get("template")?.as_map()?;
    let counts = counts_in(spec, object.member("status"))?;
    let choices = choices_in(spec)?;
    if 0 < object.meta.uid {
        Some(Specified {
            spec,
            template,
            counts,
            choices,
        })
    } else {
        None
    }
}

/// Whether the last ordinal in range, if there is one, is at most 2147483647.
fn range_fits(counts: Counts) -> bool
    ensures { result ≡ range_fits counts }
{
    let end = u64::from(counts.start) + u64::from(counts.replicas);
    counts.replicas == 0 || end - 1 <= u64::from(MAX_COUNT)
}

/// The text, copied, if there is one.
fn copy(alloc: Global, text: Option<&str>) -> Result<Option<Text>, AllocError>
    ensures { IfOk result (λ copied. copied ≡ option_map (λ s. s.now) text.entry) }
{
    match text {
        Some(text) => Ok(Some(Text::copy_of(alloc, text)?)),
        None => Ok(None),
    }
}

/// The text, if it is not empty.
fn unless_empty(text: Option<&str>) -> Option<&str>
    ensures { option_map (λ s. s.now) result ≡ unless_empty (option_map (λ s. s.now) text.entry) }
{
    match text {
        Some(text) if !text.is_empty() => Some(text),
        _ => None,
    }
}

/// Reads what a StatefulSet says of its pods (Kubernetes API reference, apps/v1, StatefulSet). A missing member and
/// `null` have the API's default.
///
/// # Errors
///
/// The first that applies:
///
/// - BadSpec if its UID is 0, if `spec` or `spec.template` is no map, or if a member of `spec` or the collision
///   count of `status` has a value that the API does not know: a number out of the range from 0 to 2147483647, another
///   text, or claim templates that are no list of maps with a DNS label as their `metadata.name`, no two alike;
/// - OrdinalTooLarge if the last of its ordinals is above 2147483647.
#[tactic(auto, using(crate::proofs::Chains::fails_then), unfolding(crate::specs::SetReading::set_of))]
pub fn read_set(alloc: Global, object: &Object) -> Result<Set, PlanError>
    ensures { Gives set_parts result (set_of object.now) }
{
    let Some(specified) = specified_in(object) else {
        return Err(PlanError::BadSpec);
    };
    let claims = claims_in(alloc, present(specified.spec.get("volumeClaimTemplates")))?;
    if !range_fits(specified.counts) {
        drop(claims);
        return Err(PlanError::OrdinalTooLarge);
    }
    Ok(set_with(alloc, object, specified, claims)?)
}

/// The set of these parts.
fn set_with(
    alloc: Global,
    object: &Object,
    specified: Specified<'_>,
    claims: Vec<(Text, Members)>,
) -> Result<Set, AllocError>
    requires named { 0 < object.now.meta.uid }
    requires start { specified.counts.start < 2 ^ 31 }
    requires collisions { specified.counts.collisions < 2 ^ 31 }
    requires fits { range_fits specified.counts ≡ true }
    requires labelled { are_labelled claims.items ≡ true }
    ensures { IfOk result (λ set. set_parts set ≡ set_with object.now (specified_parts specified.entry) claims.items) }
{
    let Counts {
        start,
        replicas,
        history_limit,
        collisions,
    } = specified.counts;
    let Choices {
        policy,
        strategy,
        when_deleted,
        when_scaled,
    } = specified.choices;
    let service = copy(
        alloc,
        unless_empty(text_in(specified.spec.get("serviceName"))),
    )?;
    let current = copy(
        alloc,
        text_in(inside(object.member("status"), "currentRevision")),
    )?;
    Ok(Set {
        template: specified.template.clone()?,
        object: object.clone()?,
        start,
        replicas,
        policy,
        strategy,
        when_deleted,
        when_scaled,
        history_limit,
        claims,
        service,
        collisions,
        current,
    })
}
