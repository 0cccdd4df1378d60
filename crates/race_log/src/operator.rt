// An operator who changes the set during a race.
ghost use Rattle.std.specs.Prelude.{◌≡◌, IfOk, codes};
ghost use Rattle.serde_json.specs.Data.{string, object, no_members, put};
ghost use Rattle.objects.specs.declared.kind.Kind.TheVariants.{Pod};
ghost use Rattle.objects.specs.Key.{key_parts};
ghost use Rattle.race_log.specs.Operator.{changes_set, fails_pod, operator_asks, template_of};
ghost use Rattle.race_log.specs.RaceSet.{set_namespace};

use crate::race_set::{NAMESPACE, set_draft};
use objects::{Draft, Key, Kind, Members, Memory, Object, Text, Tree};
use requests::Request;
use std::alloc::{AllocError, Global};

/// The template of a release.
fn template_of(alloc: Global, release: u64) -> Result<Members, AllocError>
    ensures { IfOk result (λ template. template ≡ template_of release) }
{
    let number = format!(in alloc; "{release}")?;
    let labels = Members::none(alloc)?.with_text(alloc, "release", number.as_str())?;
    let metadata = Members::none(alloc)?.with("labels", Some(Tree::Map(labels)))?;
    Members::none(alloc)?.with("metadata", Some(Tree::Map(metadata)))
}

/// The update of the set to so many pods of a release, whatever it was before.
fn change_of_set(alloc: Global, replicas: u64, release: u64) -> Result<Request, AllocError>
    ensures { IfOk result (λ request. request ≡ changes_set replicas release) }
{
    let template = template_of(alloc, release)?;
    Ok(Request::Update(set_draft(alloc, replicas, template)?))
}

#[tactic(auto, unfolding(objects::specs::Names::is_dns_label, objects::specs::Names::is_subdomain_name))]
fn pod_key(alloc: Global) -> Result<Key, AllocError>
    ensures { IfOk result (λ key. key ≡ key_parts Pod set_namespace (codes "web-0")) }
{
    let namespace = Text::copy_of(alloc, NAMESPACE)?;
    let name = Text::copy_of(alloc, "web-0")?;
    Ok(Key {
        kind: Kind::Pod,
        namespace,
        name,
    })
}

/// The members of a pod that failed.
fn failed_members(alloc: Global) -> Result<Members, AllocError>
    ensures { IfOk result (λ members. members
        ≡ put (codes "status") (object (put (codes "phase") (string (codes "Failed")) no_members)) no_members) }
{
    let status = Members::none(alloc)?.with_text(alloc, "phase", "Failed")?;
    Members::none(alloc)?.with("status", Some(Tree::Map(status)))
}

/// The status of a pod that failed.
#[tactic(auto, unfolding(objects::specs::MetadataShape::metadata_fits))]
fn failure_of_pod(alloc: Global) -> Result<Request, AllocError>
    ensures { IfOk result (λ request. request ≡ fails_pod) }
{
    let members = failed_members(alloc)?;
    let object = Object::of(alloc, pod_key(alloc)?, Members::none(alloc)?, members)?;
    Ok(Request::UpdateStatus(Draft {
        object,
        uid: None,
        version: None,
    }))
}

/// What the operator sends in a turn, counted from 0. A release takes four turns: one pod more than `replicas`, the
/// template of the next release, a pod that fails, and `replicas` pods again. Each write names no version, so it
/// depends on no reply.
pub fn operator_request(alloc: Global, replicas: u64, turn: u64) -> Result<Request, Memory>
    ensures { IfOk result (λ request. request ≡ operator_asks replicas turn) }
{
    let release = turn / 4;
    let more = replicas.saturating_add(1);
    Ok(match turn % 4 {
        0 => change_of_set(alloc, more, release)?,
        1 => change_of_set(alloc, more, release + 1)?,
        2 => failure_of_pod(alloc)?,
        _ => change_of_set(alloc, replicas, release + 1)?,
    })
}
