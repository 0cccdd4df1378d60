ghost use Rattle.std.specs.Prelude.{◌≡◌, ℕ, None, is_some, true};
ghost use Rattle.quiet_runs.specs.Examples.{reply_within};
ghost use Rattle.rounds.specs.Reconciler.{Reconciler};

/// A list over eight shards has its reply within ten steps, and not within nine.
pub fn a_quiet_list()
    ensures few { (reconcilers : ℕ → Reconciler) → reply_within 9 reconcilers ≡ None }
    ensures enough { (reconcilers : ℕ → Reconciler) → is_some (reply_within 10 reconcilers) ≡ true }
{}
