ghost use Rattle.std.specs.Prelude.{◌≡◌, ◌++◌, ℕ, List, string_bytes, OnOk};
ghost use Rattle.pictures.specs.Heading.{no_role};

use std::alloc::AllocError;

/// Who the callers of a run are.
pub trait Roles {
    /// The words before a caller's number.
    ghost role: { Self → ℕ → List ℕ };

    /// Appends the words before the caller's number: nothing, or words with a comma and a space after them.
    fn put_role(&self, caller: u64, out: &mut String) -> Result<(), AllocError>
        ensures { OnOk result (string_bytes out.new ≡ string_bytes out.old ++ role self.now caller) };
}

/// Callers with no name other than their number.
#[derive(Clone, Copy, Drop)]
pub struct NoRoles;

impl Roles for NoRoles {
    ghost role = { λ _ caller. no_role caller };

    fn put_role(&self, _caller: u64, _out: &mut String) -> Result<(), AllocError> {
        Ok(())
    }
}
