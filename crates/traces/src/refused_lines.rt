ghost use Rattle.std.specs.Prelude.{◌≡◌, ◌++◌, string_bytes, OnOk};
ghost use Rattle.traces.specs.RefusedLines.{pod_words, refused_head, refused_line, refused_words, set_name};

use crate::refused_plan::RefusedPlan;
use controllers::SetSpec;
use plan_lines::plan_error_name;
use set_views::PlanError;
use std::alloc::AllocError;

/// Appends a refused plan in words, as `plan refused: BadSpec`, or `plan refused: Foreign web-1` for a pod that is not
/// the set's.
pub(crate) fn put_refused(reason: &PlanError, out: &mut String) -> Result<(), AllocError>
    ensures { OnOk result (string_bytes out.new ≡ string_bytes out.old ++ refused_words reason.now) }
{
    let name = plan_error_name(reason);
    write!(out, "plan refused: {name}")?;
    put_pod(reason, out)
}

fn put_pod(reason: &PlanError, out: &mut String) -> Result<(), AllocError>
    ensures { OnOk result (string_bytes out.new ≡ string_bytes out.old ++ pod_words reason.now) }
{
    match reason {
        PlanError::Foreign(pod) => {
            let pod = pod.as_str();
            write!(out, " {pod}")
        }
        _ => Ok(()),
    }
}

/// Appends the line of a refused plan.
pub(crate) fn put_refused_line(
    sets: &[SetSpec],
    plan: &RefusedPlan,
    out: &mut String,
) -> Result<(), AllocError>
    ensures { OnOk result (string_bytes out.new ≡ string_bytes out.old ++ refused_line sets.now plan.now) }
{
    put_head(sets, plan.place, plan.controller, out)?;
    put_refused(&plan.reason, out)?;
    write!(out, "\n")
}

/// Appends the index, and whose plan it was.
fn put_head(
    sets: &[SetSpec],
    place: u64,
    controller: usize,
    out: &mut String,
) -> Result<(), AllocError>
    ensures { OnOk result (string_bytes out.new ≡ string_bytes out.old ++ refused_head sets.now place controller) }
{
    let name = set_name(sets, controller);
    write!(out, "{place}: {name}, controller {controller}: ")
}

fn set_name(sets: &[SetSpec], controller: usize) -> &str
    ensures { result.now ≡ set_name sets.now controller }
{
    match sets.get(controller) {
        Some(set) => set.name.as_str(),
        None => "",
    }
}
