//! `stsctl cluster`.
ghost use Rattle.std.specs.Prelude.{◌≡◌, None, false, IfOk, IfErr};
ghost use Rattle.controllers.specs.Cluster.{size_of};
ghost use Rattle.pictures.specs.Picture.{picture_text};
ghost use Rattle.pictures.specs.Story.{story_text};
ghost use Rattle.commands.specs.Clustering.{role_in, trace_beside, trace_of};
ghost use Rattle.commands.specs.Halts.{is_read, name_of};

use crate::cluster_roles::{ClusterRoles, clients_of};
use crate::halt::Halt;
use crate::running::Runnable;
use controllers::{ClusterSpec, TurnsRun, run_turns};
use objects::Memory;
use pictures::{Shown, picture, story};
use scripts::{
    ClusterScript, ScriptError, cluster_text, read_cluster_script, refused_cluster_line,
};
use std::alloc::Global;
use std::collections::BTreeSet;
use traces::{RefusedNotes, RefusedPlan, refused_plans, trace_by_lines};

/// The line of a script with its first turn.
const FIRST_TURN: u64 = 2;

impl Runnable for ClusterScript {
    ghost use Rattle.std.specs.Prelude.{List};
    ghost use Rattle.cluster_runs.specs.declared.turn.Turn.{Turn};
    ghost use Rattle.scripts.specs.Refusals.{refused_cluster_line_of};
    ghost use Rattle.scripts.specs.ClusterScripts.{ClusterParts, cluster_script_of, parts_of};
    ghost use Rattle.commands.specs.Clustering.{IsClusterRunRefusal, IsClusterShown};

    ghost Parts = { ClusterParts × List Turn };

    ghost parts = { parts_of };

    ghost script_of = { cluster_script_of };

    ghost refused_line = { refused_cluster_line_of };

    ghost is_shown = { IsClusterShown };

    ghost is_run_refusal = { IsClusterRunRefusal };

    fn read(alloc: Global, input: &[u8]) -> Result<ClusterScript, ScriptError> {
        read_cluster_script(alloc, input)
    }

    fn refused_line(alloc: Global, input: &[u8]) -> Result<Option<u64>, Memory> {
        refused_cluster_line(alloc, input)
    }

    fn lines(&self, alloc: Global) -> Result<Vec<u8>, Halt> {
        let found = run_turns(alloc, &self.spec, self.turns.as_slice())?;
        let text = cluster_text(alloc, &found.run);
        drop(found);
        Ok(text?)
    }

    fn picture(&self, alloc: Global, shown: Shown) -> Result<Vec<u8>, Halt> {
        let found = run_turns(alloc, &self.spec, self.turns.as_slice())?;
        let text = picture_of_run(alloc, self, &found, shown);
        drop(found);
        text
    }

    fn writes(&self, alloc: Global) -> Result<Vec<u8>, Halt> {
        let found = run_turns(alloc, &self.spec, self.turns.as_slice())?;
        let text = story_of_run(alloc, self, &found);
        drop(found);
        text
    }

    fn trace(&self, alloc: Global) -> Result<Vec<u8>, Halt> {
        let found = run_turns(alloc, &self.spec, self.turns.as_slice())?;
        let text = trace_of_run(alloc, self, &found);
        drop(found);
        text
    }
}

/// The picture of a run.
fn picture_of_run(
    alloc: Global,
    script: &ClusterScript,
    found: &TurnsRun,
    shown: Shown,
) -> Result<Vec<u8>, Halt>
    ensures drawn { IfOk result (λ text. text.items ≡ picture_text shown (size_of script.now.spec) (role_in script.now found.now.run) found.now.run.events.items) }
    ensures refused { IfErr result (λ halt. name_of halt ≡ None) }
    ensures read { IfErr result (λ halt. is_read halt ≡ false) }
{
    let clients = clients_of(alloc, script.turns.as_slice())?;
    let roles = ClusterRoles {
        owners: &found.run.owners,
        sets: script.spec.sets.as_slice(),
        clients: &clients,
    };
    let text = picture(
        alloc,
        script.spec.shards,
        script.spec.capacity,
        found.run.events.as_slice(),
        &roles,
        shown,
    );
    drop(clients);
    match text {
        Ok(text) => Ok(text),
        // The events ran before, so only memory can be missing.
        Err(_) => Err(Halt::Memory),
    }
}

/// The writes of a run.
fn story_of_run(alloc: Global, script: &ClusterScript, found: &TurnsRun) -> Result<Vec<u8>, Halt>
    ensures told { IfOk result (λ text. text.items ≡ story_text (role_in script.now found.now.run) (size_of script.now.spec) found.now.run.events.items) }
    ensures refused { IfErr result (λ halt. name_of halt ≡ None) }
    ensures read { IfErr result (λ halt. is_read halt ≡ false) }
{
    let clients = clients_of(alloc, script.turns.as_slice())?;
    let roles = ClusterRoles {
        owners: &found.run.owners,
        sets: script.spec.sets.as_slice(),
        clients: &clients,
    };
    let text = story(
        alloc,
        script.spec.shards,
        script.spec.capacity,
        found.run.events.as_slice(),
        &roles,
    );
    drop(clients);
    match text {
        Ok(text) => Ok(text),
        // The events ran before, so only memory can be missing.
        Err(_) => Err(Halt::Memory),
    }
}

/// The trace of a run.
fn trace_of_run(alloc: Global, script: &ClusterScript, found: &TurnsRun) -> Result<Vec<u8>, Halt>
    ensures traced { IfOk result (λ text. text.items ≡ trace_of script.now found.now.run found.now.ends.items) }
    ensures refused { IfErr result (λ halt. name_of halt ≡ None) }
    ensures read { IfErr result (λ halt. is_read halt ≡ false) }
{
    let spec = &script.spec;
    let run = &found.run;
    let items = run.run.trace.items.as_slice();
    let clients = clients_of(alloc, script.turns.as_slice())?;
    let plans = refused_plans(alloc, items, &run.owners, spec.sets.as_slice())?;
    let text = trace_beside(alloc, spec, &clients, found, plans.as_slice());
    drop(plans);
    drop(clients);
    text
}

/// The same, given the other clients, and the plans that were refused.
fn trace_beside(
    alloc: Global,
    spec: &ClusterSpec,
    clients: &BTreeSet<u64>,
    found: &TurnsRun,
    plans: &[RefusedPlan],
) -> Result<Vec<u8>, Halt>
    ensures traced { IfOk result (λ text. text.items ≡ trace_beside spec.now clients.now.keys found.now.run found.now.ends.items plans.now) }
    ensures refused { IfErr result (λ halt. name_of halt ≡ None) }
    ensures read { IfErr result (λ halt. is_read halt ≡ false) }
{
    let sets = spec.sets.as_slice();
    let notes = RefusedNotes::of(alloc, plans, sets)?;
    let roles = ClusterRoles {
        owners: &found.run.owners,
        sets,
        clients,
    };
    let text = trace_by_lines(
        alloc,
        spec.shards,
        spec.capacity,
        found.run.events.as_slice(),
        found.ends.as_slice(),
        FIRST_TURN,
        &roles,
        &notes,
    );
    drop(notes);
    match text {
        Ok(text) => Ok(text),
        // The events ran before, so only memory can be missing.
        Err(_) => Err(Halt::Memory),
    }
}
