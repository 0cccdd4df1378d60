// What a controller sends next.
ghost use Rattle.std.specs.Prelude.{◌≡◌, IfOk};
ghost use Rattle.rounds.specs.Phase.{asks};
ghost use Rattle.requests.specs.declared.request.Request.TheVariants as request;
ghost use Rattle.controllers.specs.Controller.{phase_of, reconciler_of};

use crate::controller::Controller;
use crate::progress::Progress;
use objects::{Key, Kind};
use requests::Request;
use std::alloc::AllocError;

/// The list of the objects of a kind in the namespace of a set, as they are now.
fn list_of(set: &Key, kind: Kind) -> Result<Request, AllocError>
    ensures { IfOk result (λ r. r ≡ request.List kind set.now.namespace 0) }
{
    Ok(Request::List {
        kind,
        namespace: set.namespace.clone()?,
        // 0 means the objects as they are now.
        exact: 0,
    })
}

/// What the controller sends in its present phase.
#[tactic(auto, unfolding(rounds::specs::Phase::asks, crate::specs::Controller::phase_of, crate::specs::Controller::reconciler_of, crate::specs::Progress::phase_at))]
pub(crate) fn asked(controller: &Controller) -> Result<Request, AllocError>
    ensures { IfOk result (λ r. r ≡ asks (reconciler_of controller.now) (phase_of controller.now)) }
{
    match &controller.progress {
        Progress::ReadingSet => Ok(Request::Get(controller.set.clone()?)),
        Progress::ListingRevisions { set: _ } => list_of(&controller.set, Kind::ControllerRevision),
        Progress::ListingPods {
            set: _,
            revisions: _,
        } => list_of(&controller.set, Kind::Pod),
        Progress::ListingClaims {
            set: _,
            revisions: _,
            pods: _,
        } => list_of(&controller.set, Kind::PersistentVolumeClaim),
        Progress::Acting { next, later: _ } => next.clone(),
        Progress::ListingOldClaims => list_of(&controller.set, Kind::PersistentVolumeClaim),
        Progress::ListingOwnerSets { claims: _ } => list_of(&controller.set, Kind::StatefulSet),
        Progress::ListingOwnerPods {
            claims: _,
            sets: _,
            listed_at: _,
        } => list_of(&controller.set, Kind::Pod),
        Progress::ListingOwnerRevisions {
            claims: _,
            sets: _,
            pods: _,
            listed_at: _,
        } => list_of(&controller.set, Kind::ControllerRevision),
        Progress::ListingOwnerClaims {
            claims: _,
            sets: _,
            pods: _,
            revisions: _,
            listed_at: _,
        } => list_of(&controller.set, Kind::PersistentVolumeClaim),
        Progress::Deleting { next, later: _ } => next.clone(),
    }
}
