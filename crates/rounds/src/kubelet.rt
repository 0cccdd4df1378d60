// A kubelet: it removes marked pods, and makes the others ready. In a turn it leaves those that have ended.
ghost use Rattle.std.specs.Prelude.{◌≡◌, ◌++◌, decimal, IfOk, OnOk, Some, None, option_to_list};
ghost use Rattle.serde_json.specs.Data.{array, item, no_items};
ghost use Rattle.objects.specs.Tree.{data_of};
ghost use Rattle.objects.specs.Again.{text_unless_zero};
ghost use Rattle.objects.specs.Uid.{uid_text};
ghost use Rattle.requests.specs.declared.request.Request.TheVariants.{Delete, UpdateStatus};
ghost use Rattle.rounds.specs.Kubelet.{has_ended, is_left, is_ready, kubelet_requests_for, kubelet_requests_of, made_ready, ready_condition, ready_status, turn_requests_for, turn_requests_of};

use objects::{Draft, Items, Members, Memory, Object, Text, Tree, uid_text};
use requests::{Request, uid_precondition, version_precondition};
use set_views::{Readiness, read_pod};
use std::alloc::{AllocError, Global};

/// The condition of a pod that is ready.
fn ready_condition(alloc: Global) -> Result<Tree, AllocError>
    ensures { IfOk result (λ condition. data_of condition ≡ ready_condition) }
{
    let none = Members::none(alloc)?;
    let with_status = none.with_text(alloc, "status", "True")?;
    let whole = with_status.with_text(alloc, "type", "Ready")?;
    Ok(Tree::Map(whole))
}

/// The conditions of a pod that is ready.
fn ready_conditions(alloc: Global) -> Result<Tree, AllocError>
    ensures { IfOk result (λ conditions. data_of conditions ≡ array (item ready_condition no_items)) }
{
    let mut conditions = Vec::new(alloc);
    conditions.push(ready_condition(alloc)?)?;
    Ok(Tree::List(Items::of(alloc, conditions)?))
}

/// The status of a pod that runs and is ready.
fn ready_status(alloc: Global) -> Result<Tree, AllocError>
    ensures { IfOk result (λ status. data_of status ≡ ready_status) }
{
    let conditions = ready_conditions(alloc)?;
    let none = Members::none(alloc)?;
    let with_conditions = none.with("conditions", Some(conditions))?;
    let whole = with_conditions.with_text(alloc, "phase", "Running")?;
    Ok(Tree::Map(whole))
}

/// The texts of the pod's UID and version.
fn texts_of(alloc: Global, pod: &Object) -> Result<(Option<Text>, Option<Text>), Memory>
    ensures { IfOk result (λ texts. (texts.0 ≡ text_unless_zero pod.now.meta.uid (uid_text pod.now.meta.uid)) × (texts.1 ≡ text_unless_zero pod.now.meta.revision (decimal pod.now.meta.revision))) }
{
    let uid = uid_precondition(alloc, pod.meta.uid)?;
    let version = version_precondition(alloc, pod.meta.revision)?;
    Ok((uid, version))
}

/// The pod, to be written with the status of a ready one.
fn made_ready(alloc: Global, pod: &Object) -> Result<Draft, Memory>
    ensures { IfOk result (λ draft. draft ≡ made_ready pod.now) }
{
    let status = ready_status(alloc)?;
    let (uid, version) = texts_of(alloc, pod)?;
    let object = pod.clone()?.with_status(Some(status))?;
    Ok(Draft {
        object,
        uid,
        version,
    })
}

/// The delete of a pod by its UID.
fn removal(alloc: Global, pod: &Object) -> Result<Request, Memory>
    ensures { IfOk result (λ r. r ≡ Delete pod.now.key (Some (uid_text pod.now.meta.uid)) None None) }
{
    let uid = Text::from(uid_text(alloc, pod.meta.uid)?);
    Ok(Request::Delete {
        key: pod.key.clone()?,
        uid: Some(uid),
        version: None,
        at: None,
    })
}

fn is_ready(readiness: Readiness) -> bool
    ensures { result ≡ is_ready readiness }
{
    matches!(readiness, Readiness::Ready)
}

/// The kubelet's request for a pod, if there is one.
fn asked_of(alloc: Global, pod: &Object) -> Result<Option<Request>, Memory>
    ensures { IfOk result (λ asked. option_to_list asked ≡ kubelet_requests_for pod.now) }
{
    let view = read_pod(pod);
    if view.terminating {
        return Ok(Some(removal(alloc, pod)?));
    }
    if is_ready(view.readiness) {
        return Ok(None);
    }
    Ok(Some(Request::UpdateStatus(made_ready(alloc, pod)?)))
}

/// Adds the kubelet's request for a pod.
fn put_asked(alloc: Global, pod: &Object, asked: &mut Vec<Request>) -> Result<(), Memory>
    ensures { OnOk result (asked.new.items ≡ asked.old.items ++ kubelet_requests_for pod.now) }
{
    let Some(request) = asked_of(alloc, pod)? else {
        return Ok(());
    };
    asked.push(request)?;
    Ok(())
}

fn has_ended(readiness: Readiness) -> bool
    ensures { result ≡ has_ended readiness }
{
    matches!(readiness, Readiness::Failed)
}

fn is_left(pod: &Object) -> bool
    ensures { result ≡ is_left pod.now }
{
    let view = read_pod(pod);
    !view.terminating && has_ended(view.readiness)
}

/// Adds the kubelet's request for a pod in a turn.
fn put_asked_in_turn(alloc: Global, pod: &Object, asked: &mut Vec<Request>) -> Result<(), Memory>
    ensures { OnOk result (asked.new.items ≡ asked.old.items ++ turn_requests_for pod.now) }
{
    if is_left(pod) {
        return Ok(());
    }
    put_asked(alloc, pod, asked)
}

/// The requests of the kubelet of a race for these pods, one after another. A marked pod is deleted by its UID; another
/// one that is not ready gets the status of a ready one, by its UID and version.
pub fn kubelet_requests(alloc: Global, pods: &[Object]) -> Result<Vec<Request>, Memory>
    ensures { IfOk result (λ asked. asked.items ≡ kubelet_requests_of pods.now) }
{
    let mut asked = Vec::new(alloc);
    for pod in pods {
        put_asked(alloc, pod, &mut asked)?;
    }
    Ok(asked)
}

/// The requests of the kubelet of a script in a turn: the same, but none for a pod that has ended and is not marked.
/// Kubernetes runs no such pod again: its phase, `Failed` or `Succeeded`, is final, and a controller deletes the pod
/// and makes it again.
pub fn turn_requests(alloc: Global, pods: &[Object]) -> Result<Vec<Request>, Memory>
    ensures { IfOk result (λ asked. asked.items ≡ turn_requests_of pods.now) }
{
    let mut asked = Vec::new(alloc);
    for pod in pods {
        put_asked_in_turn(alloc, pod, &mut asked)?;
    }
    Ok(asked)
}
