ghost use Rattle.std.specs.Prelude.{◌≡◌, ◌⊎◌, ◌<◌, ◌≤◌, ◌↔◌, ℕ, length, take, None, IfOk, IsErrOf, OnErr, OnOk};
ghost use Rattle.std.specs.List.{AllByRecursion};
ghost use Rattle.plain_store.specs.Reached.{most_revisions};
ghost use Rattle.rounds.specs.Phase.{reading_set};
ghost use Rattle.rounds.specs.Reconciler.{Reconciler};
ghost use Rattle.rounds.specs.Sound.{IsSound};
ghost use Rattle.rounds.specs.World.{AreMadeOf, StandAt};
ghost use Rattle.cluster_runs.specs.Ordered.{OrderKeepsPromises};
ghost use Rattle.cluster_runs.specs.Leading.{ComesTo, GoesAlong};
ghost use Rattle.cluster_runs.specs.Ran.{IsClusterRun, IsTooMany, StopsAt, cluster_after};
ghost use Rattle.cluster_runs.specs.Shown.{IsConsistent};
ghost use Rattle.cluster_runs.specs.Turns.{course_of, course_of_all, ends_of_turns, ends_with, events_of_turns, nothing};

use crate::callers::UsedCallers;
use crate::cluster::Cluster;
use crate::fault::ClusterFault;
use crate::laws::clusters_keep_promises;
use crate::run::ClusterRun;
use crate::turn::Turn;
use history::Replay;
use objects::Text;
use requests::Reply;
use rounds::ControlLoop;
use std::alloc::Global;

/// A run by turns, and how many events there were after each turn.
#[derive(Drop)]
pub struct TurnsRun {
    pub run: ClusterRun,
    /// For each turn, how many events had been passed to the store at its end.
    pub ends: Vec<usize>,
}

/// Applies the events of the turns, one after another: each turn finds the cluster as the ones before left it. The
/// namespaces are those whose pods a kubelet tends. All else is as for `run_cluster` over these events, except that
/// memory may also run out between two events, or after the last.
pub fn run_turns<C: ControlLoop>(
    alloc: Global,
    shards: usize,
    capacity: u64,
    controllers: &mut [C],
    namespaces: &[Text],
    turns: &[Turn],
) -> Result<TurnsRun, ClusterFault>
    requires { AllByRecursion (λ c. (C.phase c ≡ reading_set)) controllers.old }
    ensures run { IfOk result (λ found. (reconcilers : ℕ → Reconciler) → AreMadeOf C.reconciler controllers.old reconcilers
        → IsClusterRun (record { capacity = capacity; shards = shards }) (length controllers.old) reconcilers
        (events_of_turns (record { capacity = capacity; shards = shards }) (length controllers.old) reconcilers namespaces.now turns.now) found.run) }
    ensures ends { IfOk result (λ found. (reconcilers : ℕ → Reconciler) → AreMadeOf C.reconciler controllers.old reconcilers
        → found.ends.items
        ≡ ends_of_turns (record { capacity = capacity; shards = shards }) (length controllers.old) reconcilers namespaces.now turns.now) }
    ensures promises { IfOk result (λ found. (reconcilers : ℕ → Reconciler) → AreMadeOf C.reconciler controllers.old reconcilers
        → ((c : ℕ) → IsSound (reconcilers c))
        → OrderKeepsPromises (record { capacity = capacity; shards = shards }) reconcilers
        (cluster_after (record { capacity = capacity; shards = shards }) (length controllers.old) reconcilers
        (events_of_turns (record { capacity = capacity; shards = shards }) (length controllers.old)
        reconcilers namespaces.now turns.now)) found.run.run.order.items) }
    ensures many { length controllers.new ≡ length controllers.old }
    ensures stand { OnOk result ((reconcilers : ℕ → Reconciler) → AreMadeOf C.reconciler controllers.old reconcilers
        → StandAt C.reconciler C.phase controllers.new reconcilers
        (cluster_after (record { capacity = capacity; shards = shards }) (length controllers.old) reconcilers
        (events_of_turns (record { capacity = capacity; shards = shards }) (length controllers.old) reconcilers namespaces.now turns.now)).phases) }
    ensures unbegun { IsErrOf result ClusterFault.BadShards ⊎ (IsErrOf result ClusterFault.BadCapacity ⊎ (4096 < length controllers.old))
        → controllers.new ≡ controllers.old }
    ensures stopped { OnErr result ((reconcilers : ℕ → Reconciler) → AreMadeOf C.reconciler controllers.old reconcilers
        → (n : ℕ) × StandAt C.reconciler C.phase controllers.new reconcilers
        (cluster_after (record { capacity = capacity; shards = shards }) (length controllers.old) reconcilers
        (take n (events_of_turns (record { capacity = capacity; shards = shards }) (length controllers.old) reconcilers namespaces.now turns.now))).phases) }
    ensures filled { IsErrOf result ClusterFault.TooManyCallers → length controllers.old ≤ 4096
        → (reconcilers : ℕ → Reconciler) → AreMadeOf C.reconciler controllers.old reconcilers
        → (n : ℕ) × StopsAt C.reconciler C.phase
        (record { capacity = capacity; shards = shards }) (length controllers.old) reconcilers
        (events_of_turns (record { capacity = capacity; shards = shards }) (length controllers.old) reconcilers namespaces.now turns.now) controllers.new n
        × IsTooMany (record { capacity = capacity; shards = shards }) (length controllers.old) reconcilers
        (events_of_turns (record { capacity = capacity; shards = shards }) (length controllers.old) reconcilers namespaces.now turns.now) n }
    ensures bad_shards { IsErrOf result ClusterFault.BadShards ↔ (1 ≤ shards → 64 < shards) }
    ensures bad_capacity { IsErrOf result ClusterFault.BadCapacity ↔ ((1 ≤ shards) × (shards ≤ 64) × (1 ≤ capacity → most_revisions < capacity)) }
    ensures too_many { IsErrOf result ClusterFault.TooManyCallers → (reconcilers : ℕ → Reconciler) → AreMadeOf C.reconciler controllers.old reconcilers
        → 4096 < length (cluster_after (record { capacity = capacity; shards = shards }) (length controllers.old) reconcilers
        (events_of_turns (record { capacity = capacity; shards = shards }) (length controllers.old) reconcilers namespaces.now turns.now)).used }
{
    clusters_keep_promises();
    let replay = Replay::new(alloc, shards, capacity)?;
    let callers = UsedCallers::of(alloc, controllers.len())?;
    let mut cluster = Cluster {
        replay,
        callers,
        events: Vec::new(alloc),
    };
    let ends = cluster.apply_turns(controllers, namespaces, turns)?;
    let Cluster {
        replay,
        callers,
        events,
    } = cluster;
    let UsedCallers {
        present,
        owners,
        unused: _,
    } = callers;
    drop(present);
    Ok(TurnsRun {
        run: ClusterRun {
            events,
            run: replay.finish(),
            owners,
        },
        ends,
    })
}

impl Cluster {
    /// Makes the events of all turns, and notes how many there were after each.
    fn apply_turns<C: ControlLoop>(
        &mut self,
        controllers: &mut [C],
        namespaces: &[Text],
        turns: &[Turn],
    ) -> Result<Vec<usize>, ClusterFault>
        requires { IsConsistent controllers.old self.old }
        ensures goes_along { GoesAlong C.reconciler C.phase C.is_waiting
            (course_of_all None namespaces.now turns.now) (λ done. nothing) self.old self.new controllers.old controllers.new result }
        ensures ends { IfOk result (λ ends. ComesTo C.reconciler C.phase C.is_waiting namespaces.now turns.now ends.items self.old controllers.old) }
    {
        let mut ends = Vec::new(*self.events.allocator());
        let mut kubelet = None;
        for turn in turns {
            kubelet = self.callers.kubelet_at(kubelet, turn);
            let delivered = self.turn(controllers, kubelet, namespaces, turn)?;
            drop(delivered);
            ends.push(self.events.len())?;
        }
        Ok(ends)
    }

    /// Makes the events of one turn, and returns the reply that ends them, if any.
    fn turn<C: ControlLoop>(
        &mut self,
        controllers: &mut [C],
        kubelet: Option<u64>,
        namespaces: &[Text],
        turn: &Turn,
    ) -> Result<Option<Reply>, ClusterFault>
        requires { IsConsistent controllers.old self.old }
        ensures { GoesAlong C.reconciler C.phase C.is_waiting
            (course_of kubelet namespaces.now turn.now) ends_with self.old self.new controllers.old controllers.new result }
    {
        match turn {
            Turn::Event(event) => {
                self.apply_event(controllers, event)?;
                Ok(None)
            }
            Turn::Run(number) => self.run(controllers, *number),
            Turn::RunCaller(caller) => self.carry(controllers, *caller),
            Turn::Ask(caller, request) => self.ask(controllers, *caller, request),
            Turn::Round(number) => {
                self.round(controllers, *number)?;
                Ok(None)
            }
            Turn::Approach(number) => {
                self.approach(controllers, *number)?;
                Ok(None)
            }
            Turn::Settle { rounds } => {
                self.settle(controllers, kubelet, namespaces, *rounds)?;
                Ok(None)
            }
        }
    }
}
