ghost use Rattle.std.specs.Prelude.{◌≡◌, Bool, true, false, IfOk, OnOk, OnErr};
ghost use Rattle.rounds.specs.Phase.{Phase, asks, reading_set, takes};
ghost use Rattle.rounds.specs.Reconciler.{Reconciler};

use objects::Memory;
use requests::{Reply, Request};

/// A controller: it goes through the phases of a round again and again, one request at a time (Kubernetes,
/// "Controllers").
pub trait ControlLoop {
    /// Its set, its plan and its collection.
    ghost reconciler: { Self → Reconciler };

    /// Its phase in its round.
    ghost phase: { Self → Phase };

    /// Whether it waits for the reply to a request.
    ghost is_waiting: { Self → Bool };

    /// The next request. Until its reply is handled, the same again. If memory is short, it waits only if it waited
    /// before.
    fn next(&mut self) -> Result<Request, Memory>
        ensures asked { IfOk result (λ request. request ≡ asks (reconciler self.old) (phase self.old)) }
        ensures waiting { OnOk result (is_waiting self.new ≡ true) }
        ensures memory { OnErr result (is_waiting self.new ≡ is_waiting self.old) }
        ensures reconciler { reconciler self.new ≡ reconciler self.old }
        ensures phase { phase self.new ≡ phase self.old };

    /// Handles the reply to its last request, and waits no more. If it waits for none, its phase stays. If memory is
    /// short, its phase stays too, and it still waits.
    fn take(&mut self, reply: &Reply) -> Result<(), Memory>
        ensures taken { OnOk result (is_waiting self.old ≡ true → phase self.new ≡ takes (reconciler self.old) (phase self.old) reply.now) }
        ensures idle { is_waiting self.old ≡ false → phase self.new ≡ phase self.old }
        ensures answered { OnOk result (is_waiting self.new ≡ false) }
        ensures memory { OnErr result (phase self.new ≡ phase self.old) }
        ensures waiting { OnErr result (is_waiting self.new ≡ is_waiting self.old) }
        ensures reconciler { reconciler self.new ≡ reconciler self.old };

    /// Forgets its round.
    fn crash(&mut self)
        ensures forgotten { phase self.new ≡ reading_set }
        ensures idle { is_waiting self.new ≡ false }
        ensures reconciler { reconciler self.new ≡ reconciler self.old };
}
