// The pods of a set's namespace.
ghost use Rattle.std.specs.Prelude.{◌≡◌, IfOk};
ghost use Rattle.set_views.specs.Set.{set_parts};
ghost use Rattle.pod_steps.specs.Views.{AreViews, listed_pods};

use objects::{Kind, Object};
use set_views::{PodView, Set, read_pod};
use std::alloc::{AllocError, Global};
use std::collections::BTreeSet;

fn name_of(object: &Object) -> &str
    ensures { result.now ≡ object.now.key.name }
{
    object.key.name.as_str()
}

/// Reads the pods of the set's namespace, in the order of the list. Objects of other kinds and namespaces are ignored;
/// of several pods with one name the first counts.
pub fn views_of<'a>(
    alloc: Global,
    set: &Set,
    objects: &'a [Object],
) -> Result<Vec<PodView<'a>>, AllocError>
    ensures { IfOk result (λ views. AreViews (listed_pods (set_parts set.now) objects.now) views.items) }
{
    let mut names = BTreeSet::new(alloc);
    let mut views = Vec::new(alloc);
    for object in objects {
        if set.has_in_namespace(Kind::Pod, object) && names.insert(name_of(object))? {
            views.push(read_pod(object))?;
        }
    }
    Ok(views)
}
