// Notes about controllers that plan nothing when a race begins.
ghost use Rattle.std.specs.Prelude.{◌≡◌, ◌++◌, codes, false, map, IfErr, IfOk, IfSome, OnOk};
ghost use Rattle.commands.specs.Finding.{IsBadCapacity};
ghost use Rattle.commands.specs.Halts.{is_read, name_of};
ghost use Rattle.commands.specs.Noting.{notes_in, race_notes, standing_in, standing_of};
ghost use Rattle.first_rounds.specs.Notes.{standing_parts};

use crate::finding::number_of;
use crate::halt::Halt;
use explorer::Race;
use first_rounds::{Standing, notes_text};
use participants::Participant;
use race_lines::AskedRace;
use std::alloc::{AllocError, Global};

/// The notes about the race; none beside a script of one end.
pub(crate) fn notes_in(
    alloc: Global,
    choice: Option<u64>,
    asked: &AskedRace,
) -> Result<Vec<u8>, Halt>
    ensures notes { IfOk result (λ notes. notes.items ≡ notes_in choice asked.now) }
    ensures refused { IfErr result (λ halt. IfSome (name_of halt)
        (λ name. IsBadCapacity asked.now.race.capacity × (name ≡ codes "BadCapacity"))) }
    ensures read { IfErr result (λ halt. is_read halt ≡ false) }
{
    match choice {
        None => race_notes(alloc, &asked.race),
        Some(_number) => Ok(Vec::new(alloc)),
    }
}

fn race_notes(alloc: Global, race: &Race) -> Result<Vec<u8>, Halt>
    ensures notes { IfOk result (λ notes. notes.items ≡ race_notes race.now) }
    ensures refused { IfErr result (λ halt. IfSome (name_of halt)
        (λ name. IsBadCapacity race.now.capacity × (name ≡ codes "BadCapacity"))) }
    ensures read { IfErr result (λ halt. is_read halt ≡ false) }
{
    let standing = standing_in(alloc, race.participants.as_slice(), race.lines.as_slice())?;
    Ok(notes_text(
        alloc,
        race.capacity,
        race.beginning.as_slice(),
        standing.as_slice(),
    )?)
}

/// The controllers, each with the number of its line, in the order of the lines.
fn standing_in<'a>(
    alloc: Global,
    participants: &'a [Participant],
    lines: &[Vec<usize>],
) -> Result<Vec<Standing<'a>>, AllocError>
    ensures { IfOk result (λ all. map standing_parts all.items ≡ standing_in participants.now lines.now) }
{
    let mut all = Vec::new(alloc);
    let mut left = lines;
    for participant in participants {
        let Some((own, behind)) = left.split_first() else {
            break;
        };
        push_standing(participant, own.as_slice(), &mut all)?;
        left = behind;
    }
    Ok(all)
}

fn push_standing<'a>(
    participant: &'a Participant,
    own: &[usize],
    all: &mut Vec<Standing<'a>>,
) -> Result<(), AllocError>
    ensures { OnOk result (map standing_parts all.new.items ≡ map standing_parts all.old.items ++ standing_of participant.now own.now) }
{
    match (participant, own.first()) {
        (
            Participant::Controller {
                set,
                rounds: _,
                may_crash: _,
                spares_reads: _,
            },
            Some(index),
        ) => {
            let line = number_of(*index);
            all.push(Standing { line, set })?;
            Ok(())
        }
        _ => Ok(()),
    }
}
