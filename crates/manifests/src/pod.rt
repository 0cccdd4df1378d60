// The pods that a plan creates.
ghost use Rattle.std.specs.Prelude.{◌≡◌, codes, true, option_map, IfOk};
ghost use Rattle.serde_json.specs.Data.{put, string};
ghost use Rattle.objects.specs.declared.kind.Kind.TheVariants.{Pod};
ghost use Rattle.objects.specs.Key.{is_key, key_parts};
ghost use Rattle.objects.specs.PodNames.{pod_name};
ghost use Rattle.objects.specs.Building.{put_some};
ghost use Rattle.objects.specs.Tree.{data_of};
ghost use Rattle.set_views.specs.Set.{set_parts};
ghost use Rattle.set_views.specs.Steps.{Gives};
ghost use Rattle.manifests.specs.BuiltPod.{built_pod, named_pod, pod_labels, pod_members, pod_metadata, pod_spec};
ghost use Rattle.manifests.specs.Template.{part, template_of};

use crate::pod_template::PodTemplate;
use crate::volumes::with_others;
use objects::{Key, Kind, MAX_LABEL, Members, Object, ReadError, Tree, pod_name};
use set_views::{PlanError, Set};
use std::alloc::{AllocError, Global};

/// These labels, with those of a set's pods over them.
fn pod_labels(
    alloc: Global,
    name: &str,
    revision: &str,
    ordinal: u32,
    labels: Members,
) -> Result<Members, AllocError>
    ensures { IfOk result (λ all. all ≡ pod_labels name.now revision.now ordinal labels) }
{
    let named = labels.with_text(alloc, "statefulset.kubernetes.io/pod-name", name)?;
    let versioned = named.with_text(alloc, "controller-revision-hash", revision)?;
    let mut buffer = itoa::Buffer::new();
    let index = buffer.format(ordinal);
    let all = versioned.with_text(alloc, "apps.kubernetes.io/pod-index", index)?;
    Ok(all)
}

/// The metadata of a pod, except its name and namespace, over that of the template.
fn pod_metadata(
    alloc: Global,
    template: &PodTemplate<'_>,
    name: &str,
    ordinal: u32,
) -> Result<Members, AllocError>
    ensures { IfOk result (λ ms. ms ≡ pod_metadata (set_parts template.now.set.now) name.now template.now.revision.now.key.name ordinal
        (part (codes "metadata") (template_of template.now.revision.now))) }
{
    let revision = template.revision;
    let own = template.labels.clone()?;
    let labels = pod_labels(alloc, name, revision.key.name.as_str(), ordinal, own)?;
    let metadata = template.metadata.clone()?;
    let whole = metadata.with("labels", Some(Tree::Map(labels)))?;
    Ok(whole)
}

/// The set's service as the pod's subdomain, if it has one.
fn subdomain_of(set: &Set) -> Result<Option<Tree>, AllocError>
    ensures { IfOk result (λ found. option_map data_of found ≡ option_map string (set_parts set.now).service) }
{
    match &set.service {
        Some(service) => Ok(Some(Tree::Text(service.clone()?))),
        None => Ok(None),
    }
}

/// The spec with a pod's network identity: its hostname and its subdomain.
fn with_network_id(
    alloc: Global,
    set: &Set,
    name: &str,
    spec: Members,
) -> Result<Members, AllocError>
    ensures { IfOk result (λ ms. ms ≡ put_some (codes "subdomain") (option_map string (set_parts set.now).service)
        (put (codes "hostname") (string name.now) spec)) }
{
    let named = spec.with_text(alloc, "hostname", name)?;
    named.with_some("subdomain", subdomain_of(set)?)
}

/// The spec of a pod, over that of the template.
fn pod_spec(
    alloc: Global,
    template: &PodTemplate<'_>,
    name: &str,
    ordinal: u32,
) -> Result<Members, AllocError>
    ensures { IfOk result (λ ms. ms ≡ pod_spec (set_parts template.now.set.now) name.now ordinal
        (part (codes "spec") (template_of template.now.revision.now))) }
{
    let own = template.spec.clone()?;
    let spec = with_network_id(alloc, template.set, name, own)?;
    let whole = with_others(alloc, template.set, ordinal, &template.others, spec)?;
    Ok(whole)
}

/// The members of a pod except its metadata.
fn pod_members(
    alloc: Global,
    template: &PodTemplate<'_>,
    name: &str,
    ordinal: u32,
) -> Result<Members, AllocError>
    ensures { IfOk result (λ ms. ms ≡ pod_members (set_parts template.now.set.now) name.now ordinal (template_of template.now.revision.now)) }
{
    let spec = pod_spec(alloc, template, name, ordinal)?;
    let members = Members::none(alloc)?.with("spec", Some(Tree::Map(spec)))?;
    Ok(members)
}

fn pod_key(alloc: Global, set: &Set, name: &str) -> Result<Key, AllocError>
    requires { is_key (key_parts Pod set.now.object.key.namespace name.now) ≡ true }
    ensures { IfOk result (λ key. key ≡ key_parts Pod set.now.object.key.namespace name.now) }
{
    match Key::of(alloc, Kind::Pod, set.object.key.namespace.as_str(), name) {
        Ok(key) => Ok(key),
        Err(ReadError::Memory) => Err(AllocError),
        // The caller knows that the name makes a key, so only memory can run out.
        Err(_) => unreachable!(),
    }
}

/// The pod of that name, from this template.
fn named_pod(
    alloc: Global,
    template: &PodTemplate<'_>,
    ordinal: u32,
    name: &str,
) -> Result<Object, AllocError>
    requires { is_key (key_parts Pod template.now.set.now.object.key.namespace name.now) ≡ true }
    ensures { IfOk result (λ pod. pod ≡ named_pod (set_parts template.now.set.now) (template_of template.now.revision.now)
        template.now.revision.now.key.name ordinal name.now) }
{
    let metadata = pod_metadata(alloc, template, name, ordinal)?;
    let members = pod_members(alloc, template, name, ordinal)?;
    let key = pod_key(alloc, template.set, name)?;
    let pod = Object::of(alloc, key, metadata, members)?;
    Ok(pod)
}

/// The set's name, which its pods' begin with.
fn name_of(set: &Set) -> &str
    ensures name { result.now ≡ set.now.object.key.name }
    ensures valid { is_key set.now.object.key ≡ true }
{
    set.object.key.name.as_str()
}

/// The Pod of the set's ordinal, as it is to be created from that template (Kubernetes, "StatefulSets": "Pod
/// Identity"). Over the template's own labels it has `apps.kubernetes.io/pod-index`, `controller-revision-hash` and
/// `statefulset.kubernetes.io/pod-name`, and over the template's own spec the pod's name as `hostname` and the set's
/// service, if it has one, as `subdomain`; the set is its one owner. If the set has claim templates, its `volumes` are
/// one for each of them, stored in the claim of that template and the ordinal, and then the template's own of other
/// names ("Stable Storage").
///
/// It is NameTooLong if the name, which is a hostname and the value of a label, has more than 63 bytes.
#[tactic(auto, unfolding(crate::specs::BuiltPod::built_pod))]
pub fn pod_of(alloc: Global, template: &PodTemplate<'_>, ordinal: u32) -> Result<Object, PlanError>
    ensures { Gives (λ pod. pod) result (built_pod (set_parts template.now.set.now) template.now.revision.now ordinal) }
{
    let name = pod_name(alloc, name_of(template.set), ordinal)?;
    if MAX_LABEL < name.as_str().len() {
        drop(name);
        return Err(PlanError::NameTooLong);
    }
    let pod = named_pod(alloc, template, ordinal, name.as_str())?;
    Ok(pod)
}
