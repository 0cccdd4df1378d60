//! Short runs worked out by hand, which check that the definitions of a cluster mean what they should.
ghost use Rattle.std.specs.Prelude.{◌≡◌, [], ◌∷◌, Some, None};
ghost use Rattle.objects.specs.declared.kind.Kind.TheVariants.{PersistentVolumeClaim};
ghost use Rattle.interleavings.specs.declared.event.Event.TheVariants.{Call, Crash, Part, Read, Reply};
ghost use Rattle.rounds.specs.Examples.{one_replica};
ghost use Rattle.rounds.specs.Phase.{list_of};
ghost use Rattle.cluster_runs.specs.Examples.{asked_by, beside_another, crash_in_a_read, get, handed_on, incarnation, nothing_but_a_call, reply_is_heard};

/// What some short runs pass to the store, and whose incarnations sent the requests of an order of their calls.
pub fn short_clusters()
    ensures crash_in_a_read { handed_on crash_in_a_read ≡ Call 0 get ∷ Read 0 ∷ Crash 0 ∷ Call 1 get ∷ [] }
    ensures beside_another { handed_on beside_another ≡ Call 1 get ∷ Call 0 get ∷ Crash 0 ∷ Call 2 get ∷ [] }
    ensures reply_is_heard { handed_on reply_is_heard ≡
        Call 0 get ∷ Read 0 ∷ Part 0 ∷ Reply 0 ∷ Call 0 (list_of one_replica PersistentVolumeClaim) ∷ [] }
    ensures nothing_but_a_call { handed_on nothing_but_a_call ≡ Call 0 get ∷ [] }
    ensures incarnations { asked_by beside_another (3 ∷ 0 ∷ 1 ∷ []) ≡ Some (incarnation 1) ∷ None ∷ Some (incarnation 0) ∷ [] }
{}
