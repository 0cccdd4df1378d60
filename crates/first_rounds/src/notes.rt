//! Lines about controllers that plan nothing when they begin.
ghost use Rattle.std.specs.Prelude.{◌≡◌, ◌≤◌, ◌<◌, ◌++◌, map, string_bytes, IfOk, OnOk, IsErrOf};
ghost use Rattle.plain_store.specs.Reached.{most_revisions};
ghost use Rattle.first_rounds.specs.Notes.{head_words, note_at, note_of, notes_over, notes_text, obstacle_words, pod_words, refusal_words, standing_parts};

use crate::begun::pass;
use crate::obstacle::{Obstacle, first_obstacle};
use controllers::SetSpec;
use objects::Memory;
use plain_store::{PlainError, Trees};
use plan_lines::plan_error_name;
use requests::Request;
use sets::PlanError;
use std::alloc::{AllocError, Global};
use thiserror::Error;

/// A controller, and the number of the line that has it.
#[derive(Clone, Copy)]
pub struct Standing<'a> {
    pub line: u64,
    pub set: &'a SetSpec,
}

/// Why there are no notes.
#[derive(Clone, Copy, Debug, PartialEq, Eq, Error)]
pub enum NotesError {
    /// The capacity is not from 1 to 1,048,576.
    #[error("the capacity is out of range")]
    BadCapacity,
    /// An allocation was refused.
    #[error("out of memory")]
    Memory,
}

impl From<Memory> for NotesError {
    ghost use Rattle.first_rounds.specs.declared.notes.NotesError.TheVariants.{Memory as OutOfMemory};

    ghost from_gives = { λ _ e. e ≡ OutOfMemory };

    fn from(_error: Memory) -> NotesError {
        NotesError::Memory
    }
}

impl From<AllocError> for NotesError {
    ghost use Rattle.first_rounds.specs.declared.notes.NotesError.TheVariants.{Memory as OutOfMemory};

    ghost from_gives = { λ _ e. e ≡ OutOfMemory };

    fn from(_error: AllocError) -> NotesError {
        NotesError::Memory
    }
}

impl From<PlainError> for NotesError {
    ghost use Rattle.first_rounds.specs.declared.notes.NotesError.TheVariants.{BadCapacity as OutOfRange};

    ghost from_gives = { λ _ e. e ≡ OutOfRange };

    fn from(_error: PlainError) -> NotesError {
        NotesError::BadCapacity
    }
}

/// The lines of those controllers that plan nothing over the store that these requests leave, as
/// `line 7: StatefulSet default/web is not there when the race begins`, or
/// `line 7: StatefulSet default/web has no plan when the race begins: Foreign web-1` for a pod that is not the set's.
///
/// # Errors
///
/// `BadCapacity` if the capacity is not from 1 to 1,048,576.
#[tactic(auto, unfolding(crate::specs::Notes::notes_text))]
pub fn notes_text(
    alloc: Global,
    capacity: u64,
    beginning: &[Request],
    controllers: &[Standing<'_>],
) -> Result<Vec<u8>, NotesError>
    ensures text { IfOk result (λ text. text.items ≡ notes_text capacity beginning.now (map standing_parts controllers.now)) }
    ensures refused { IsErrOf result NotesError.BadCapacity → 1 ≤ capacity → most_revisions < capacity }
{
    let mut store = Trees::new(alloc, capacity)?;
    pass(&mut store, beginning)?;
    let text = notes_over(alloc, &store, controllers)?;
    Ok(text.into_bytes())
}

fn notes_over(alloc: Global, store: &Trees, controllers: &[Standing<'_>]) -> Result<String, Memory>
    ensures { IfOk result (λ text. string_bytes text ≡ notes_over store.now (map standing_parts controllers.now)) }
{
    let mut text = String::new(alloc);
    for standing in controllers {
        put_note(alloc, store, *standing, &mut text)?;
    }
    Ok(text)
}

fn put_note(
    alloc: Global,
    store: &Trees,
    standing: Standing<'_>,
    out: &mut String,
) -> Result<(), Memory>
    ensures { OnOk result (string_bytes out.new ≡ string_bytes out.old ++ note_at store.now (standing_parts standing.entry)) }
{
    match first_obstacle(alloc, standing.set, store)? {
        Some(obstacle) => Ok(put_line(standing.line, standing.set, &obstacle, out)?),
        None => Ok(()),
    }
}

fn put_line(
    line: u64,
    set: &SetSpec,
    obstacle: &Obstacle,
    out: &mut String,
) -> Result<(), AllocError>
    ensures { OnOk result (string_bytes out.new ≡ string_bytes out.old ++ note_of line set.now obstacle.now) }
{
    put_head(line, set, out)?;
    put_obstacle(obstacle, out)?;
    out.push_str("\n")
}

fn put_head(line: u64, set: &SetSpec, out: &mut String) -> Result<(), AllocError>
    ensures { OnOk result (string_bytes out.new ≡ string_bytes out.old ++ head_words line set.now) }
{
    let namespace = set.namespace.as_str();
    let name = set.name.as_str();
    write!(out, "line {line}: StatefulSet {namespace}/{name}")
}

fn put_obstacle(obstacle: &Obstacle, out: &mut String) -> Result<(), AllocError>
    ensures { OnOk result (string_bytes out.new ≡ string_bytes out.old ++ obstacle_words obstacle.now) }
{
    match obstacle {
        Obstacle::NoSet => out.push_str(" is not there when the race begins"),
        Obstacle::NoPlan(error) => put_refusal(error, out),
    }
}

fn put_refusal(error: &PlanError, out: &mut String) -> Result<(), AllocError>
    ensures { OnOk result (string_bytes out.new ≡ string_bytes out.old ++ refusal_words error.now) }
{
    let name = plan_error_name(error);
    write!(out, " has no plan when the race begins: {name}")?;
    put_pod(error, out)
}

fn put_pod(error: &PlanError, out: &mut String) -> Result<(), AllocError>
    ensures { OnOk result (string_bytes out.new ≡ string_bytes out.old ++ pod_words error.now) }
{
    match error {
        PlanError::Foreign(pod) => {
            let pod = pod.as_str();
            write!(out, " {pod}")
        }
        _ => Ok(()),
    }
}
