ghost use Rattle.std.specs.Prelude.{◌≡◌, ◌++◌, ℕ, IfOk, OnOk, string_bytes};
ghost use Rattle.std.specs.Option.{option_or};
ghost use Rattle.traces.specs.Noted.{note_in, noted_in, plan_if};
ghost use Rattle.traces.specs.RefusedLines.{line_at};

use crate::notes::Notes;
use crate::refused_lines::put_refused_line;
use crate::refused_plan::RefusedPlan;
use controllers::SetSpec;
use std::alloc::{AllocError, Global};
use std::collections::BTreeMap;

/// The plans that were refused in a run, as text for a person: a line at the index of each, by what the controllers are
/// made of.
#[derive(Drop)]
pub struct RefusedNotes<'a> {
    by_place: BTreeMap<u64, &'a RefusedPlan>,
    sets: &'a [SetSpec],
}

impl<'a> RefusedNotes<'a> {
    /// The notes of these plans.
    #[tactic(auto, unfolding(crate::specs::Noted::note_in))]
    pub fn of(
        alloc: Global,
        plans: &'a [RefusedPlan],
        sets: &'a [SetSpec],
    ) -> Result<RefusedNotes<'a>, AllocError>
        ensures { IfOk result (λ notes. (place : ℕ) → note_in notes place ≡ line_at sets.now plans.now place) }
    {
        let mut by_place = BTreeMap::new(alloc);
        for plan in plans {
            note(&mut by_place, plan)?;
        }
        Ok(RefusedNotes { by_place, sets })
    }
}

impl Notes for RefusedNotes<'_> {
    ghost note = { λ notes place. note_in notes place };

    #[tactic(auto, unfolding(crate::specs::Noted::note_in))]
    fn put_note(&self, place: u64, out: &mut String) -> Result<(), AllocError> {
        match self.by_place.get(&place) {
            Some(plan) => put_refused_line(self.sets, plan, out),
            None => Ok(()),
        }
    }
}

/// Notes a refused plan, unless one at its index is noted.
fn note<'a>(
    by_place: &mut BTreeMap<u64, &'a RefusedPlan>,
    plan: &'a RefusedPlan,
) -> Result<(), AllocError>
    ensures { OnOk result ((place : ℕ) → noted_in by_place.new place ≡ option_or (noted_in by_place.old place) (plan_if place plan.now)) }
{
    if !by_place.contains_key(&plan.place) {
        by_place.insert(plan.place, plan)?;
    }
    Ok(())
}
