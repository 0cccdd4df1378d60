use set_views::PlanError;

/// A plan that a controller could not make, at the index of the reply that completed its reading: the list of the
/// claims.
#[derive(Drop)]
pub struct RefusedPlan {
    pub place: u64,
    pub controller: usize,
    pub reason: PlanError,
}
