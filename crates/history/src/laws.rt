//! The law of the steps that bring callers closer to their replies.
ghost use Rattle.std.specs.Prelude.{◌≡◌, ◌≢◌, ℕ, Some};
ghost use Rattle.history.specs.NextStep.{next_step};
ghost use Rattle.interleavings.specs.declared.event.Event.{Event};
ghost use Rattle.interleavings.specs.Step.{happens};
ghost use Rattle.interleavings.specs.World.{Size, World};

/// The step that brings a caller closer to its reply is enabled: it leaves another world.
pub fn next_steps_are_enabled()
    ensures { (size : Size) (world : World) (caller : ℕ) (event : Event) → next_step size world caller ≡ Some event → happens size world event ≢ world }
{}
