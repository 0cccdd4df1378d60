// What a reply does to a controller.
ghost use Rattle.std.specs.Prelude.{◌≡◌, ◌∷◌, [], ◌||◌, ℕ, List, true, false, reverse, IfOk, IfSome, IfNone, if◌then◌else◌};
ghost use Rattle.collector.specs.Collectable.{collection};
ghost use Rattle.rounds.specs.Accepted.{succeeded};
ghost use Rattle.rounds.specs.Phase as phases;
ghost use Rattle.rounds.specs.Phase.{acts, deletes, from_set, is_refusal, reading_set, takes};
ghost use Rattle.objects.specs.declared.key.Key.{Key};
ghost use Rattle.requests.specs.declared.reply.Reply.TheVariants.{Listed};
ghost use Rattle.controllers.specs.Progress.{is_list, is_listing, phase_at};
ghost use Rattle.controllers.specs.Reconciler.{reconciler_with};

use crate::progress::Progress;
use collector::collect;
use objects::{Memory, Object};
use requests::{Listing, Reason, Reply, Request};
use std::alloc::{AllocError, Global};

/// Whether the write was done, or there was nothing to do.
fn succeeded(request: &Request, reply: &Reply) -> bool
    ensures { result ≡ succeeded request.now reply.now }
{
    match (request, reply) {
        (Request::Create(_), Reply::Created(_)) => true,
        (Request::Update(_) | Request::UpdateStatus(_), Reply::Updated(_) | Reply::Unchanged(_)) =>
            { true }
        (
            Request::Delete {
                key: _,
                uid: _,
                version: _,
                at: _,
            },
            Reply::Marked(_) | Reply::Unchanged(_) | Reply::Removed(_),
        ) => true,
        _ => false,
    }
}

fn is_refusal(reply: &Reply) -> bool
    ensures { result ≡ is_refusal reply.now }
{
    matches!(reply, Reply::Refused(_))
}

/// After the set was read. Without a set there is nothing to plan.
#[tactic(auto, unfolding(crate::specs::Progress::phase_at))]
pub(crate) fn after_set(reply: &Reply) -> Result<Progress, AllocError>
    ensures { IfOk result (λ p. phase_at p ≡ from_set reply.now) }
{
    match reply {
        Reply::Found(set) => Ok(Progress::ListingRevisions { set: set.clone()? }),
        Reply::Refused(Reason::NotFound) => Ok(Progress::ListingOldClaims),
        _ => Ok(Progress::ReadingSet),
    }
}

/// The rest of a plan, the last request first. After the first one the controller collects.
#[tactic(auto, unfolding(crate::specs::Progress::phase_at), using(crate::proofs::Later::popped_some, crate::proofs::Later::popped_none))]
fn acts(mut later: Vec<Request>) -> Progress
    ensures { phase_at result ≡ acts (reverse later.items) }
{
    match later.pop() {
        Some(next) => Progress::Acting { next, later },
        None => {
            drop(later);
            Progress::ListingOldClaims
        }
    }
}

/// The rest of the deletes, the last one first. After the first one the round is over.
#[tactic(auto, unfolding(crate::specs::Progress::phase_at), using(crate::proofs::Later::popped_some, crate::proofs::Later::popped_none))]
fn deletes(mut later: Vec<Request>) -> Progress
    ensures { phase_at result ≡ deletes (reverse later.items) }
{
    match later.pop() {
        Some(next) => Progress::Deleting { next, later },
        None => {
            drop(later);
            Progress::ReadingSet
        }
    }
}

/// The requests to send, one after another.
pub(crate) fn acting(mut requests: Vec<Request>) -> Progress
    ensures { phase_at result ≡ acts requests.items }
{
    requests.reverse();
    acts(requests)
}

fn deleting(mut requests: Vec<Request>) -> Progress
    ensures { phase_at result ≡ deletes requests.items }
{
    requests.reverse();
    deletes(requests)
}

/// After an action. A refused one ends the round.
#[tactic(auto, unfolding(crate::specs::Progress::phase_at))]
pub(crate) fn after_action(next: Request, later: Vec<Request>, reply: &Reply) -> Progress
    ensures { phase_at result ≡ (if succeeded next reply.now then acts (reverse later.items) else reading_set) }
{
    let done = succeeded(&next, reply);
    drop(next);
    if done {
        return acts(later);
    }
    drop(later);
    Progress::ReadingSet
}

/// After the delete of a claim. A refused one is skipped.
#[tactic(auto, unfolding(crate::specs::Progress::phase_at))]
pub(crate) fn after_deletion(next: Request, later: Vec<Request>, reply: &Reply) -> Progress
    ensures { phase_at result ≡ (if succeeded next reply.now || is_refusal reply.now then deletes (reverse later.items) else reading_set) }
{
    let passes = succeeded(&next, reply) || is_refusal(reply);
    drop(next);
    if passes {
        return deletes(later);
    }
    drop(later);
    Progress::ReadingSet
}

/// Lists of everything that may own a claim.
#[derive(Clone, Copy)]
pub(crate) struct Owners<'a> {
    pub sets: &'a [Object],
    pub pods: &'a [Object],
    pub revisions: &'a [Object],
    pub claims: &'a [Object],
}

/// The deletes of the claims that have no owner any more.
pub(crate) fn collecting(
    alloc: Global,
    claims: &[Object],
    owners: &Owners<'_>,
    listed_at: u64,
) -> Result<Progress, Memory>
    ensures { IfOk result (λ p. phase_at p ≡ deletes
        (collection claims.now (owners.now.sets.now ∷ owners.now.pods.now ∷ owners.now.revisions.now ∷ owners.now.claims.now ∷ []) listed_at)) }
{
    let lists = [owners.sets, owners.pods, owners.revisions, owners.claims];
    Ok(deleting(collect(alloc, claims, &lists, listed_at)?))
}

/// The objects of a list that was returned, and its revision.
pub(crate) fn listed(reply: &Reply) -> Option<(&Listing, u64)>
    ensures some { IfSome result (λ list. reply.now ≡ Listed list.0.now list.1) }
    ensures none { IfNone result (is_list reply.now ≡ false) }
{
    match reply {
        Reply::Listed { objects, revision } => Some((objects, *revision)),
        _ => None,
    }
}

#[tactic(auto, unfolding(crate::specs::Progress::phase_at))]
fn listing_pods(set: &Object, revisions: &Listing) -> Result<Progress, AllocError>
    ensures { IfOk result (λ p. phase_at p ≡ phases.listing_pods set.now revisions.now) }
{
    let revisions = revisions.clone()?;
    let set = set.clone()?;
    Ok(Progress::ListingPods { set, revisions })
}

#[tactic(auto, unfolding(crate::specs::Progress::phase_at))]
fn listing_claims(set: &Object, revisions: &Listing, pods: &Listing) -> Result<Progress, AllocError>
    ensures { IfOk result (λ p. phase_at p ≡ phases.listing_claims set.now revisions.now pods.now) }
{
    let revisions = revisions.clone()?;
    let pods = pods.clone()?;
    let set = set.clone()?;
    Ok(Progress::ListingClaims {
        set,
        revisions,
        pods,
    })
}

#[tactic(auto, unfolding(crate::specs::Progress::phase_at))]
fn listing_owner_pods(
    claims: &Listing,
    sets: &Listing,
    listed_at: u64,
) -> Result<Progress, AllocError>
    ensures { IfOk result (λ p. phase_at p ≡ phases.listing_owner_pods claims.now sets.now listed_at) }
{
    let claims = claims.clone()?;
    let sets = sets.clone()?;
    Ok(Progress::ListingOwnerPods {
        claims,
        sets,
        listed_at,
    })
}

#[tactic(auto, unfolding(crate::specs::Progress::phase_at))]
fn listing_owner_revisions(
    claims: &Listing,
    sets: &Listing,
    pods: &Listing,
    listed_at: u64,
) -> Result<Progress, AllocError>
    ensures { IfOk result (λ p. phase_at p ≡ phases.listing_owner_revisions claims.now sets.now pods.now listed_at) }
{
    let claims = claims.clone()?;
    let sets = sets.clone()?;
    let pods = pods.clone()?;
    Ok(Progress::ListingOwnerRevisions {
        claims,
        sets,
        pods,
        listed_at,
    })
}

#[tactic(auto, unfolding(crate::specs::Progress::phase_at))]
fn listing_owner_claims(
    claims: &Listing,
    sets: &Listing,
    pods: &Listing,
    revisions: &Listing,
    listed_at: u64,
) -> Result<Progress, AllocError>
    ensures { IfOk result (λ p. phase_at p ≡ phases.listing_owner_claims claims.now sets.now pods.now revisions.now listed_at) }
{
    let claims = claims.clone()?;
    let sets = sets.clone()?;
    let pods = pods.clone()?;
    let revisions = revisions.clone()?;
    Ok(Progress::ListingOwnerClaims {
        claims,
        sets,
        pods,
        revisions,
        listed_at,
    })
}

#[tactic(auto, unfolding(crate::specs::Progress::phase_at))]
fn listing_owner_sets(claims: &Listing) -> Result<Progress, AllocError>
    ensures { IfOk result (λ p. phase_at p ≡ phases.listing_owner_sets claims.now) }
{
    let claims = claims.clone()?;
    Ok(Progress::ListingOwnerSets { claims })
}

/// After a list, except that of the claims for a plan.
#[tactic(auto, unfolding(crate::specs::Progress::phase_at, rounds::specs::Phase::takes))]
pub(crate) fn after_list(
    alloc: Global,
    progress: &Progress,
    objects: &Listing,
    revision: u64,
) -> Result<Progress, Memory>
    ensures { IfOk result (λ p. is_listing progress.now ≡ true → (set : Key) (digits : ℕ) (moment : List ℕ)
        → phase_at p ≡ takes (reconciler_with set digits moment) (phase_at progress.now) (Listed objects.now revision)) }
{
    match progress {
        Progress::ListingRevisions { set } => Ok(listing_pods(set, objects)?),
        Progress::ListingPods { set, revisions } => Ok(listing_claims(set, revisions, objects)?),
        Progress::ListingOldClaims => Ok(listing_owner_sets(objects)?),
        Progress::ListingOwnerSets { claims } => {
            Ok(listing_owner_pods(claims, objects, revision)?)
        }
        Progress::ListingOwnerPods {
            claims,
            sets,
            listed_at,
        } => Ok(listing_owner_revisions(claims, sets, objects, (*listed_at).min(revision))?),
        Progress::ListingOwnerRevisions {
            claims,
            sets,
            pods,
            listed_at,
        } => Ok(listing_owner_claims(claims, sets, pods, objects, (*listed_at).min(revision))?),
        Progress::ListingOwnerClaims {
            claims,
            sets,
            pods,
            revisions,
            listed_at,
        } => {
            let owners = Owners {
                sets: sets.as_slice(),
                pods: pods.as_slice(),
                revisions: revisions.as_slice(),
                claims: objects.as_slice(),
            };
            let least = (*listed_at).min(revision);
            collecting(alloc, claims.as_slice(), &owners, least)
        }
        _ => Ok(Progress::ReadingSet),
    }
}
