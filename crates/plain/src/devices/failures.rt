// How often a stream has failed. The number exists only in proofs, where it has no largest value.
ghost use Rattle.std.specs.Prelude.{◌≡◌, ◌+◌, ℕ};
ghost use Rattle.std.specs.Coded.{coded_ℕ};
ghost use base.Fml.{ftrue};

use std::marker::Model;

#[derive(Drop)]
pub(crate) struct Failures {
    ghost count: { ℕ } by { coded_ℕ },
}

impl Model for Failures {
    ghost also_owns = { λ _. ftrue };
}

impl Failures {
    // A stream that has not failed.
    pub(crate) fn none() -> Failures
        ensures { result.count ≡ 0 }
    {
        Failures {}
    }

    pub(crate) fn one_more(&self) -> Failures
        ensures { result.count ≡ self.now.count + 1 }
    {
        Failures {}
    }
}
