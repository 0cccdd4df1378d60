//! Rounds worked out by hand, which show that the machine means what it should.
ghost use Rattle.std.specs.Prelude.{◌≡◌, [], ◌∷◌, codes};
ghost use Rattle.rounds.specs.Examples.{after_a_crash, asked_over, no_set, refused_action, two_rounds};

/// The requests of a controller of a set of one replica, over the replies of some short runs.
pub fn short_rounds()
    ensures two_rounds { asked_over two_rounds ≡
        codes "get" ∷ codes "revisions" ∷ codes "pods" ∷ codes "claims" ∷ codes "create"
        ∷ codes "claims" ∷ codes "sets" ∷ codes "pods" ∷ codes "revisions" ∷ codes "claims"
        ∷ codes "get" ∷ codes "revisions" ∷ codes "pods" ∷ codes "claims" ∷ codes "create" ∷ [] }
    ensures after_a_crash { asked_over after_a_crash ≡
        codes "get" ∷ codes "revisions" ∷ codes "pods" ∷ codes "claims" ∷ codes "status" ∷ [] }
    ensures refused_action { asked_over refused_action ≡
        codes "get" ∷ codes "revisions" ∷ codes "pods" ∷ codes "claims" ∷ codes "create" ∷ codes "get" ∷ [] }
    ensures no_set { asked_over no_set ≡
        codes "get" ∷ codes "claims" ∷ codes "sets" ∷ codes "pods" ∷ codes "revisions" ∷ codes "claims"
        ∷ codes "delete" ∷ codes "delete" ∷ codes "get" ∷ [] }
{}
