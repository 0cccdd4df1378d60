ghost use Rattle.std.specs.Prelude.{◌≡◌, option_map};
ghost use Rattle.objects.specs.Tree.{data_of};
ghost use Rattle.revisions.specs.Choice.{template_of};
ghost use Rattle.revisions.specs.Revision.{data_in, number_of};

use objects::{Members, Object, Tree};

/// A ControllerRevision as a plan sees it, read once. It borrows the object.
#[derive(Clone, Copy)]
pub struct RevisionView<'a> {
    pub name: &'a str,
    /// `revision`: of a set's revisions the greatest is the newest. A value that is no whole number from 0 up counts as
    /// 0.
    pub number: u64,
    /// The ControllerRevision itself, with its UID and version.
    pub object: &'a Object,
    ghost named: { name.now ≡ object.now.key.name },
    ghost numbered: { number ≡ number_of object.now },
}

/// Reads what a plan needs of a ControllerRevision (Kubernetes API reference, apps/v1, ControllerRevision). It takes no
/// memory.
pub(crate) fn read_revision(revision: &Object) -> RevisionView<'_>
    ensures { result.object.now ≡ revision.now }
{
    RevisionView {
        name: revision.key.name.as_str(),
        number: number_of(revision),
        object: revision,
    }
}

impl<'a> RevisionView<'a> {
    /// `data`, which never changes: what pods are made from.
    pub(crate) fn data(&self) -> Option<&'a Tree>
        ensures { option_map (λ t. data_of t.now) result ≡ data_in self.now.object.now }
    {
        self.object.member("data")
    }

    /// `data.spec.template`: the pod template (Kubernetes API reference, PodTemplateSpec), if it is a map.
    pub fn template(&self) -> Option<&'a Members>
        ensures { option_map (λ m. m.now) result ≡ template_of self.now.object.now }
    {
        let spec = self.data()?.as_map()?.get("spec")?;
        spec.as_map()?.get("template")?.as_map()
    }
}

fn number_of(revision: &Object) -> u64
    ensures { result ≡ number_of revision.now }
{
    match revision.member("revision") {
        Some(Tree::Integer(number)) => number.as_u64().unwrap_or(0),
        // A revision that has no number is put among the oldest.
        _ => 0,
    }
}
