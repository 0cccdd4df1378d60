// The labels and the owner references of an object.
ghost use Rattle.std.specs.Prelude.{◌≡◌, ◌≢◌, ℕ, List, Option, Some, option_map, option_and_then, codes, unwrap_or, IfOk, true};
ghost use Rattle.serde_json.specs.Data.{Data, Items as DataItems, Members as DataMembers, array, no_items, object};
ghost use Rattle.serde_json.specs.Find.{get_member};
ghost use Rattle.trees.specs.Tree.{data_of, items_of};
ghost use Rattle.objects.specs.Metadata.{metadata_of, label_of, owner_references, owners_of, with_owners};
ghost use Rattle.objects.specs.MetadataShape.{are_owners, owners_fit};
ghost use Rattle.objects.specs.Status.{member_of};

use crate::object::Object;
use crate::status::with_member;
use std::alloc::AllocError;
use trees::{Items, Members, Tree};

impl Object {
    /// The value of a label: the text of that name in `metadata.labels` (Kubernetes API reference, ObjectMeta). There
    /// is none if `labels` or the label is missing or `null`, if `labels` is no map, or if the label is no text.
    pub fn label(&self, name: &str) -> Option<&str>
        ensures { option_map (λ s. s.now) result ≡ label_of self.now.body name.now }
    {
        metadata_of(&self.body)?
            .get("labels")?
            .as_map()?
            .get(name)?
            .as_text()
    }

    /// The items of `metadata.ownerReferences` (Kubernetes API reference, ObjectMeta), in order: the objects that this
    /// one depends on, each a map with a text `uid`. There are none if it is missing or `null`.
    pub fn owners(&self) -> &[Tree]
        ensures items { items_of result.now ≡ owners_of self.now.body }
        ensures fit { are_owners (items_of result.now) ≡ true }
    {
        match owner_references(&self.body) {
            Some(owners) => owners.as_slice(),
            None => &[],
        }
    }

    /// The object whose `metadata.ownerReferences` are these, in order, or that has none. Each is a map with a text
    /// `uid`, which `are_owners` tests. The members of `metadata` are copied, but never what their values hold. The
    /// key, the meta and all other members stay.
    pub fn with_owners(self, owners: Option<Items>) -> Result<Object, AllocError>
        requires { owners_fit (option_map array owners) ≡ true }
        ensures key { IfOk result (λ object. object.key ≡ self.key) }
        ensures meta { IfOk result (λ object. object.meta ≡ self.meta) }
        ensures body { IfOk result (λ object. object.body ≡ with_owners owners self.body) }
    {
        let Object { key, meta, body } = self;
        Ok(Object {
            key,
            meta,
            body: with_owners(body, owners)?,
        })
    }
}

fn with_owners(body: Tree, owners: Option<Items>) -> Result<Tree, AllocError>
    requires { (metadata : DataMembers) × (metadata_of (data_of body) ≡ Some metadata) }
    ensures { IfOk result (λ changed. data_of changed ≡ with_owners owners (data_of body)) }
{
    let Some(metadata) = metadata_of(&body) else {
        unreachable!();
    };
    let owned = metadata
        .clone()?
        .with("ownerReferences", owners.map(Tree::List))?;
    with_member(body, "metadata", Some(Tree::Map(owned)))
}

fn metadata_of(body: &Tree) -> Option<&Members>
    ensures { option_map (λ m. m.now) result ≡ metadata_of (data_of body.now) }
{
    body.as_map()?.get("metadata")?.as_map()
}

fn owner_references(body: &Tree) -> Option<&Items>
    ensures { option_map (λ i. i.now) result ≡ owner_references (data_of body.now) }
{
    metadata_of(body)?.get("ownerReferences")?.as_list()
}

/// Owners that are set are there, and if they are removed there are none; all other members of `metadata` and of the
/// body stay as they were.
pub fn only_the_owners_change()
    ensures set { (owners : Option DataItems) (members : DataMembers)
        → owners_of (with_owners owners (object members)) ≡ unwrap_or owners no_items }
    ensures inside { (other : List ℕ) (owners : Option DataItems) (members : DataMembers)
        → other ≢ codes "ownerReferences"
        → option_and_then (get_member other) (metadata_of (with_owners owners (object members)))
        ≡ option_and_then (get_member other) (metadata_of (object members)) }
    ensures others { (other : List ℕ) (owners : Option DataItems) (body : Data)
        → other ≢ codes "metadata" → member_of other (with_owners owners body) ≡ member_of other body }
{}
