ghost use Rattle.std.specs.Prelude.{◌≡◌, ◌<◌, ◌≤◌, ◌↔◌, ◌⊎◌, [], length, OnOk, OnErr, IfOk, IfErr, IsErrOf};
ghost use Rattle.history.specs.Named.{with_named, without};
ghost use Rattle.interleavings.specs.Callers.{named_by};

use crate::replay_error::ReplayError;
use interleavings::Event;
use std::alloc::Global;
use std::collections::BTreeSet;

/// The most callers that the events of a run may name.
pub const MAX_CALLERS: usize = 4096;

/// The callers that the events have named.
#[derive(Drop)]
pub(crate) struct NamedCallers {
    pub callers: BTreeSet<u64>,
}

impl NamedCallers {
    pub(crate) fn new(alloc: Global) -> NamedCallers
        ensures { result.callers.keys ≡ [] }
    {
        NamedCallers {
            callers: BTreeSet::new(alloc),
        }
    }

    /// Notes the caller of an event, and returns it if no event has named it before.
    pub(crate) fn note(&mut self, event: &Event) -> Result<Option<u64>, ReplayError>
        requires { length self.old.callers.keys ≤ 4096 }
        ensures noted { OnOk result (self.new.callers.keys ≡ with_named self.old.callers.keys (named_by event.now)) }
        ensures newly { IfOk result (λ newly. without newly self.new.callers.keys ≡ self.old.callers.keys) }
        ensures few { OnOk result (length self.new.callers.keys ≤ 4096) }
        ensures too_many { IsErrOf result ReplayError.TooManyCallers ↔ (4096 < length (with_named self.old.callers.keys (named_by event.now))) }
        ensures refused { OnErr result (self.new.callers.keys ≡ self.old.callers.keys) }
        ensures reasons { IfErr result (λ reason. (reason ≡ ReplayError.TooManyCallers) ⊎ (reason ≡ ReplayError.Memory)) }
    {
        let Some(caller) = event.caller() else {
            return Ok(None);
        };
        if self.callers.contains(&caller) {
            return Ok(None);
        }
        if self.callers.len() == MAX_CALLERS {
            return Err(ReplayError::TooManyCallers);
        }
        self.callers.insert(caller)?;
        Ok(Some(caller))
    }

    /// Forgets a caller that was noted, if there is one.
    pub(crate) fn forget(&mut self, caller: Option<u64>)
        ensures { self.new.callers.keys ≡ without caller self.old.callers.keys }
    {
        if let Some(caller) = caller {
            self.callers.remove(&caller);
        }
    }
}
