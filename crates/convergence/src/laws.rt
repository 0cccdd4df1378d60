// When the pods of a set come to stand as its spec says.
ghost use Rattle.std.specs.Prelude.{◌≡◌, ◌↔◌, ◌⊎◌, ◌≤◌, ◌+◌, ◌-◌, ℕ, []};
ghost use Rattle.set_views.specs.Set.{SetParts};
ghost use Rattle.pod_steps.specs.Replicas.{AreInOrder, Pods};
ghost use Rattle.pod_steps.specs.Step.{pod_steps};
ghost use Rattle.pod_steps.specs.FullSteps.{full_steps};
ghost use Rattle.convergence.specs.Left.{most_rounds, rounds_left};
ghost use Rattle.convergence.specs.Rounds.{AreRounds, IsRound};
ghost use Rattle.convergence.specs.Standing.{AreTended, Stands};
ghost use Rattle.convergence.specs.Stopped.{IsStopped, IsUnstopped};

use set_views::Policy;

/// A plan creates, deletes and waits for no pod exactly where the pods stand as the spec says. Under Parallel, which waits for no
/// pod while it scales, that is so where each pod is ready or has ended, as a kubelet's turn leaves them.
#[tactic(auto, using(crate::proofs::SilentParallel::silent_is_standing_either))]
pub fn plans_fall_silent_where_sets_stand()
    ensures { (set : SetParts) (pods : Pods) → AreInOrder pods → (set.policy ≡ Policy.Parallel → AreTended pods)
        → (pod_steps (full_steps set pods) ≡ []) ↔ Stands set pods }
{}

/// Where each pod is ready or has ended, no round is left exactly where the pods stand as the spec says.
#[tactic(auto, using(crate::proofs::Falls::none_left_is_standing))]
pub fn none_left_where_sets_stand()
    ensures { (set : SetParts) (pods : Pods) → AreInOrder pods → AreTended pods → (rounds_left set pods ≡ 0) ↔ Stands set pods }
{}

/// Where each pod is ready or has ended, a round brings the set nearer. Under OrderedReady, if no pod stops a scale-down, that is
/// by one each time: the set stands after as many rounds as were left, and not before. Under Parallel it is by one or more.
pub fn rounds_bring_sets_nearer()
    ensures ordered_ready { (set : SetParts) (pods last : Pods) (k : ℕ) → AreInOrder pods → set.policy ≡ Policy.OrderedReady
        → AreTended pods → IsUnstopped set pods → AreRounds set k pods last → rounds_left set last ≡ rounds_left set pods - k }
    ensures parallel { (set : SetParts) (pods next : Pods) → AreInOrder pods → set.policy ≡ Policy.Parallel
        → AreTended pods → IsRound set pods next → rounds_left set next ≤ rounds_left set pods - 1 }
{}

/// No more are left than two for each replica, and one for each condemned pod.
#[tactic(auto, using(crate::proofs::Falls::few_left))]
pub fn rounds_left_are_few()
    ensures { (set : SetParts) (pods : Pods) → rounds_left set pods ≤ most_rounds set pods }
{}

/// From any pods two rounds for each replica, one for each condemned pod and one more bring the set to stand as its spec says;
/// and there it stays. Only a failed pod stops it, under OrderedReady: one out of range, with another one above it.
#[tactic(auto, using(crate::proofs::Comes::comes_to_stand))]
pub fn sets_come_to_stand()
    ensures { (set : SetParts) (pods last : Pods) (k : ℕ) → AreInOrder pods → AreRounds set k pods last → most_rounds set pods + 1 ≤ k
        → Stands set last ⊎ ((set.policy ≡ Policy.OrderedReady) × IsStopped set pods) }
{}

/// Such a set never comes to stand, however many rounds there are: somebody else has to delete the pod.
#[tactic(auto, using(crate::proofs::Stopped::never_stands))]
pub fn stopped_sets_never_stand()
    ensures { (set : SetParts) (pods last : Pods) (k : ℕ) → AreInOrder pods → set.policy ≡ Policy.OrderedReady → IsStopped set pods
        → AreRounds set k pods last → ¬ Stands set last }
{}

/// From any pods there is a round, so none of these laws is of rounds that no pods have.
#[tactic(auto, using(crate::proofs::Going::goes_on))]
pub fn rounds_go_on()
    ensures { (set : SetParts) (pods : Pods) → AreInOrder pods → (next : Pods) × IsRound set pods next }
{}
