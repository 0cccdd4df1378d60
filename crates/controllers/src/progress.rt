ghost use Rattle.std.specs.Prelude.{◌≡◌};
ghost use Rattle.controllers.specs.Progress.{is_listing};

use objects::Object;
use requests::{Listing, Request};

/// How far a controller is in its round: what it sends next, and what it read for that. Of the requests still to be
/// sent the next one is kept apart, and the others are in reverse.
#[derive(Drop)]
pub(crate) enum Progress {
    ReadingSet,
    ListingRevisions {
        set: Object,
    },
    ListingPods {
        set: Object,
        revisions: Listing,
    },
    ListingClaims {
        set: Object,
        revisions: Listing,
        pods: Listing,
    },
    Acting {
        next: Request,
        later: Vec<Request>,
    },
    ListingOldClaims,
    ListingOwnerSets {
        claims: Listing,
    },
    ListingOwnerPods {
        claims: Listing,
        sets: Listing,
        listed_at: u64,
    },
    ListingOwnerRevisions {
        claims: Listing,
        sets: Listing,
        pods: Listing,
        listed_at: u64,
    },
    ListingOwnerClaims {
        claims: Listing,
        sets: Listing,
        pods: Listing,
        revisions: Listing,
        listed_at: u64,
    },
    Deleting {
        next: Request,
        later: Vec<Request>,
    },
}

impl Progress {
    /// Whether it waits for a list, other than that of the claims for its plan.
    pub(crate) fn is_listing(&self) -> bool
        ensures { result ≡ is_listing self.now }
    {
        match self {
            Progress::ReadingSet
            | Progress::ListingClaims {
                set: _,
                revisions: _,
                pods: _,
            }
            | Progress::Acting { next: _, later: _ }
            | Progress::Deleting { next: _, later: _ } => false,
            _ => true,
        }
    }
}
