// What a set's pods have in common.
ghost use Rattle.std.specs.Prelude.{◌≡◌, codes, IfOk};
ghost use Rattle.serde_json.specs.View.{items_of};
ghost use Rattle.objects.specs.Building.{put_some};
ghost use Rattle.set_views.specs.Set.{set_parts};
ghost use Rattle.revisions.specs.Built.{owned_metadata};
ghost use Rattle.manifests.specs.Template.{labels_in, part, part_in, template_of};
ghost use Rattle.manifests.specs.Volumes.{other_volumes};

use crate::members::{part, part_in};
use crate::template::{labels_in, template_of};
use crate::volumes::other_volumes;
use objects::{Items, Members, Memory, Object};
use revisions::{RevisionView, owned_metadata};
use set_views::Set;
use std::alloc::Global;

/// What the pods of a set from one revision have in common. It is made once, so that each pod costs only its own parts.
#[derive(Drop)]
pub struct PodTemplate<'a> {
    pub set: &'a Set,
    /// The ControllerRevision that the pods are made from.
    pub revision: &'a Object,
    /// The template's own labels.
    pub(crate) labels: Members,
    /// The set as the owner, and the template's annotations.
    pub(crate) metadata: Members,
    pub(crate) spec: Members,
    /// The template's own volumes, of other names than claim templates have.
    pub(crate) others: Items,
    ghost labelled: { labels ≡ labels_in (part (codes "metadata") (template_of revision.now)) },
    ghost owned: { metadata ≡ put_some (codes "annotations") (part_in (codes "annotations") (part (codes "metadata") (template_of revision.now)))
        (owned_metadata (set_parts set.now)) },
    ghost specified: { spec ≡ part (codes "spec") (template_of revision.now) },
    ghost stored: { others ≡ items_of (other_volumes (set_parts set.now) spec) },
}

impl<'a> PodTemplate<'a> {
    /// What the set's pods from that revision have in common. A part of its template that is of the wrong type counts
    /// as missing: `metadata`, `annotations` and `spec` are maps, `labels` is a map of texts, and `volumes` a list.
    pub fn of(
        alloc: Global,
        set: &'a Set,
        revision: &RevisionView<'a>,
    ) -> Result<PodTemplate<'a>, Memory>
        ensures set { IfOk result (λ template. template.set.now ≡ set.now) }
        ensures revision { IfOk result (λ template. template.revision.now ≡ revision.now.object.now) }
    {
        let members = template_of(alloc, revision)?;
        let given = part(alloc, &members, "metadata")?;
        let spec = part(alloc, &members, "spec")?;
        drop(members);
        let labels = labels_in(alloc, &given)?;
        let metadata = with_annotations(alloc, set, &given)?;
        drop(given);
        let others = other_volumes(alloc, set, &spec)?;
        Ok(PodTemplate {
            set,
            revision: revision.object,
            labels,
            metadata,
            spec,
            others,
        })
    }
}

/// The set as the owner, and the annotations of this metadata.
fn with_annotations(alloc: Global, set: &Set, metadata: &Members) -> Result<Members, Memory>
    ensures { IfOk result (λ ms. ms ≡ put_some (codes "annotations") (part_in (codes "annotations") metadata.now) (owned_metadata (set_parts set.now))) }
{
    let annotations = part_in(metadata, "annotations")?;
    let owned = owned_metadata(alloc, set)?;
    Ok(owned.with_some("annotations", annotations)?)
}
