//! Notes next to the events of a run.
ghost use Rattle.std.specs.Prelude.{◌≡◌, ◌++◌, ℕ, List, string_bytes, OnOk};
ghost use Rattle.traces.specs.Traced.{no_note};

use std::alloc::AllocError;

/// Lines that follow the lines of events.
pub trait Notes {
    /// What follows the line of the event at an index.
    ghost note: { Self → ℕ → List ℕ };

    /// Appends what follows the line of the event at that index: nothing, or whole lines.
    fn put_note(&self, place: u64, out: &mut String) -> Result<(), AllocError>
        ensures { OnOk result (string_bytes out.new ≡ string_bytes out.old ++ note self.now place) };
}

/// No notes.
#[derive(Clone, Copy, Drop)]
pub(crate) struct NoNotes;

impl Notes for NoNotes {
    ghost note = { λ _ place. no_note place };

    fn put_note(&self, _place: u64, _out: &mut String) -> Result<(), AllocError> {
        Ok(())
    }
}
