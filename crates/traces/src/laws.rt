//! Laws of traces: of events that are enabled, and of refused plans.
ghost use Rattle.std.specs.Prelude.{◌≡◌, ◌≢◌, false, true, List};
ghost use Rattle.interleavings.specs.Callers.{named_by};
ghost use Rattle.interleavings.specs.declared.event.Event.{Event};
ghost use Rattle.interleavings.specs.Step.{happens};
ghost use Rattle.interleavings.specs.World.{Size, World};
ghost use Rattle.cluster_runs.specs.declared.event.ClusterEvent.{ClusterEvent};
ghost use Rattle.controllers.specs.declared.set_spec.SetSpec.{SetSpec};
ghost use Rattle.traces.specs.Enabled.{is_enabled, run_state_of};
ghost use Rattle.traces.specs.InCluster.{StandAsCallers};

/// An enabled event changes the world, and any other leaves it as it was.
pub fn enabled_events_change_the_world()
    ensures enabled { (size : Size) (world : World) (event : Event) → is_enabled event (run_state_of size world (named_by event)) ≡ true → happens size world event ≢ world }
    ensures not_enabled { (size : Size) (world : World) (event : Event) → is_enabled event (run_state_of size world (named_by event)) ≡ false → happens size world event ≡ world }
{}

/// At each moment of a run, each controller of the cluster is in the phase that the definition gives its caller, by the
/// owners at the end of the run. So a plan is reported as refused exactly when the cluster's controller has it refused,
/// whenever controllers crash.
pub fn callers_stand_as_their_controllers()
    ensures { (size : Size) (sets : List SetSpec) (events more : List ClusterEvent) → StandAsCallers size sets events more }
{}
