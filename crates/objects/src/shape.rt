// The shape of `labels` and `ownerReferences` (Kubernetes API reference, ObjectMeta).
ghost use Rattle.std.specs.Prelude.{◌≡◌, option_map};
ghost use Rattle.trees.specs.Tree.{data_of, items_of, members_of};
ghost use Rattle.objects.specs.MetadataShape.{are_texts, is_owner, are_owners, labels_fit, owners_fit, metadata_fits};

use trees::{Members, Text, Tree};

/// Whether `labels` and `ownerReferences` have their shape, as in
/// `{"labels":{"app":"web"},"ownerReferences":[{"uid":"..", ..}]}`. A missing one and `null` have it too.
#[tactic(auto, unfolding(crate::specs::MetadataShape::metadata_fits))]
pub(crate) fn metadata_fits(metadata: &Members) -> bool
    ensures { result ≡ metadata_fits metadata.now }
{
    labels_fit(metadata.get("labels")) && owners_fit(metadata.get("ownerReferences"))
}

/// Whether the value of `labels` is a map of texts, if it is there.
fn labels_fit(found: Option<&Tree>) -> bool
    ensures { result ≡ labels_fit (option_map (λ t. data_of t.now) found.entry) }
{
    match found {
        None | Some(Tree::Null) => true,
        Some(Tree::Map(labels)) => are_texts(labels.entries()),
        Some(_) => false,
    }
}

/// Whether the value of `ownerReferences` is a list of owners, if it is there.
fn owners_fit(found: Option<&Tree>) -> bool
    ensures { result ≡ owners_fit (option_map (λ t. data_of t.now) found.entry) }
{
    match found {
        None | Some(Tree::Null) => true,
        Some(Tree::List(owners)) => are_owners(owners.as_slice()),
        Some(_) => false,
    }
}

/// Whether each of these members is a text, as in `{"app":"web"}`.
pub fn are_texts(entries: &[(Text, Tree)]) -> bool
    ensures { result ≡ are_texts (members_of entries.now) }
{
    entries.iter().all(|(_, value)| value.as_text().is_some())
}

/// Whether each of these is an owner reference as an object may have it: a map with a text `uid`.
pub(crate) fn are_owners(items: &[Tree]) -> bool
    ensures { result ≡ are_owners (items_of items.now) }
{
    items.iter().all(is_owner)
}

/// Whether the value is a map with a text `uid`.
fn is_owner(value: &Tree) -> bool
    ensures { result ≡ is_owner (data_of value.now) }
{
    let Some(owner) = value.as_map() else {
        return false;
    };
    owner.get("uid").and_then(Tree::as_text).is_some()
}
