//! Why a run over a whole input has no output, and its exit status.
ghost use Rattle.std.specs.Prelude.{◌≡◌, ◌≢◌, ◌<◌, ◌⊎◌, None, Some, false, true};
ghost use Rattle.commands.specs.Clustering.{cluster_refusal};
ghost use Rattle.commands.specs.Finding.{ending_refusal, scripting_refusal};
ghost use Rattle.commands.specs.Halts.{IsNamed, Tells, halt_of, is_read, name_of, refused_as};
ghost use Rattle.commands.specs.Noting.{notes_refusal};
ghost use Rattle.commands.specs.Planning.{plan_refusal, read_refusal};
ghost use Rattle.commands.specs.Replaying.{run_refusal};

use crate::status::{
    BAD_WORDS, FAILURE, REFUSED, SUCCESS, TrackedAlloc, write_foreign, write_refusal,
    write_refusal_at,
};
use controllers::ClusterFault;
use explorer::Refusal;
use first_rounds::NotesError;
use history::ReplayError;
use objects::{Memory, ReadError, Text};
use plain::{InputFault, RequestError, Sink};
use plan_lines::plan_error_name;
use race_scripts::ScriptingError;
use sets::PlanError;
use std::alloc::AllocError;

/// Why there is no output.
#[derive(Drop)]
pub(crate) enum Halt {
    /// The reader failed.
    Read,
    /// An allocation was refused.
    Memory,
    /// The input is refused, by this name.
    Refused(&'static str),
    /// The same, for the line of this number, in which that is wrong.
    RefusedAt(&'static str, u64, &'static str),
    /// A plan is refused for the pod of this name, which is not the set's.
    Foreign(Text),
}

impl From<AllocError> for Halt {
    ghost from_gives = { λ _ halt. (is_read halt ≡ false) × (name_of halt ≡ None) };

    fn from(_error: AllocError) -> Halt {
        Halt::Memory
    }
}

impl From<Memory> for Halt {
    ghost from_gives = { λ _ halt. (is_read halt ≡ false) × (name_of halt ≡ None) };

    fn from(_error: Memory) -> Halt {
        Halt::Memory
    }
}

impl From<InputFault> for Halt {
    ghost from_gives = { λ fault halt. halt ≡ halt_of fault };

    fn from(fault: InputFault) -> Halt {
        match fault {
            InputFault::Read => Halt::Read,
            InputFault::Memory => Halt::Memory,
        }
    }
}

impl From<ReadError> for Halt {
    ghost from_gives = { λ error halt. (is_read halt ≡ false) × (name_of halt ≡ read_refusal error) };

    fn from(error: ReadError) -> Halt {
        match error {
            ReadError::Memory => Halt::Memory,
            error => Halt::Refused(RequestError::Read(error).name()),
        }
    }
}

impl From<PlanError> for Halt {
    ghost from_gives = { λ error halt. (is_read halt ≡ false) × (name_of halt ≡ plan_refusal false error) };

    fn from(error: PlanError) -> Halt {
        match error {
            PlanError::Memory => Halt::Memory,
            error => Halt::Refused(plan_error_name(&error)),
        }
    }
}

impl From<ReplayError> for Halt {
    ghost from_gives = { λ error halt. (is_read halt ≡ false) × (name_of halt ≡ run_refusal error) };

    fn from(error: ReplayError) -> Halt {
        match error {
            ReplayError::Memory => Halt::Memory,
            ReplayError::BadShards => Halt::Refused("BadShards"),
            ReplayError::BadCapacity => Halt::Refused("BadCapacity"),
            ReplayError::TooManyCallers => Halt::Refused("TooManyCallers"),
        }
    }
}

impl From<ClusterFault> for Halt {
    ghost from_gives = { λ error halt. (is_read halt ≡ false) × (name_of halt ≡ cluster_refusal error) };

    fn from(error: ClusterFault) -> Halt {
        match error {
            ClusterFault::Memory => Halt::Memory,
            ClusterFault::BadShards => Halt::Refused("BadShards"),
            ClusterFault::BadCapacity => Halt::Refused("BadCapacity"),
            ClusterFault::TooManyCallers => Halt::Refused("TooManyCallers"),
        }
    }
}

impl From<Refusal> for Halt {
    ghost from_gives = { λ error halt. (is_read halt ≡ false) × (name_of halt ≡ ending_refusal error) };

    fn from(error: Refusal) -> Halt {
        match error {
            Refusal::Memory => Halt::Memory,
            Refusal::BadCapacity => Halt::Refused("BadCapacity"),
            Refusal::TooManyOutcomes => Halt::Refused("TooManyOutcomes"),
        }
    }
}

impl From<NotesError> for Halt {
    ghost from_gives = { λ error halt. (is_read halt ≡ false) × (name_of halt ≡ notes_refusal error) };

    fn from(error: NotesError) -> Halt {
        match error {
            NotesError::Memory => Halt::Memory,
            NotesError::BadCapacity => Halt::Refused("BadCapacity"),
        }
    }
}

impl From<ScriptingError> for Halt {
    ghost from_gives = { λ error halt. (is_read halt ≡ false) × (name_of halt ≡ scripting_refusal error) };

    fn from(error: ScriptingError) -> Halt {
        match error {
            ScriptingError::Memory => Halt::Memory,
            ScriptingError::NoScript => Halt::Refused("NoScript"),
        }
    }
}

/// A refusal by that name, and for that line, with what is wrong in it, if one is to be named.
pub(crate) fn halt_at(name: &'static str, line: Option<u64>, fault: &'static str) -> Halt
    ensures read { is_read result ≡ false }
    ensures named { name_of result ≡ Some (refused_as line fault.now name.now) }
{
    match line {
        Some(line) => Halt::RefusedAt(name, line, fault),
        None => Halt::Refused(name),
    }
}

/// The exit status of a run without output. A refusal is written to `faults`.
pub(crate) fn report_halt<F: Sink>(heap: &mut TrackedAlloc, halt: Halt, faults: &mut F) -> u8
    ensures status { (result < BAD_WORDS) ⊎ (result ≡ REFUSED) }
    ensures failed { result ≢ SUCCESS }
    ensures named { result ≡ REFUSED → IsNamed (name_of halt)
        (λ name. Tells name (F.written faults.old) (F.written faults.new) (F.failures faults.old) (F.failures faults.new)) }
    ensures cause { result ≡ FAILURE → (is_read halt ≡ true) ⊎ (heap.new.refused ≡ true) }
    ensures memory { result ≢ FAILURE → heap.new.refused ≡ heap.old.refused }
    ensures spared { is_read halt ≡ true → heap.new.refused ≡ heap.old.refused }
    ensures quiet { result < BAD_WORDS → faults.new ≡ faults.old }
{
    match halt {
        Halt::Read => FAILURE,
        Halt::Memory => {
            heap.refused = true;
            FAILURE
        }
        Halt::Refused(name) => write_refusal(faults, name),
        Halt::RefusedAt(name, line, fault) => write_refusal_at(faults, name, line, fault),
        Halt::Foreign(pod) => write_foreign(faults, &pod),
    }
}
