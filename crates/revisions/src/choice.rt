// Which revision a set's pods are to get.
ghost use Rattle.std.specs.Prelude.{◌≡◌, nat_le, option_map, reverse, true};
ghost use Rattle.std.specs.List.{find};
ghost use Rattle.std.specs.Option.{is_some, option_map_or};
ghost use Rattle.objects.specs.Tree.{data_of};
ghost use Rattle.set_views.specs.Set.{set_parts};
ghost use Rattle.revisions.specs.Chosen.{chosen};
ghost use Rattle.revisions.specs.Choice.{choice_of, greatest, has_data, most_number, named_among, named_current, template_of};
ghost use Rattle.revisions.specs.Plan.{greatest_after, is_sound, objects_of};

use crate::view::RevisionView;
use objects::Tree;
use set_views::Set;

/// The largest number of a revision, so that the API's integers of 64 bits with a sign hold a next one.
const MAX_NUMBER: u64 = 9_223_372_036_854_775_806;

#[derive(Clone, Copy)]
pub(crate) enum Chosen<'a> {
    /// The newest revision has the template.
    InPlace(RevisionView<'a>),
    /// An older one has it.
    Renumber(RevisionView<'a>),
    /// None has it.
    Create,
}

fn has_data(revision: &RevisionView<'_>, template: &Tree) -> bool
    ensures { result ≡ has_data (data_of template.now) revision.now.object.now }
{
    match revision.data() {
        Some(stored) => template.is_same(stored),
        None => false,
    }
}

/// The newest of these revisions whose `data` is that of the set's template.
fn newest_with<'a>(owned: &[RevisionView<'a>], template: &Tree) -> Option<RevisionView<'a>>
    ensures { option_map (λ r. r.object.now) result ≡ find (has_data (data_of template.now)) (reverse (objects_of owned.now)) }
{
    for revision in owned.iter().rev() {
        if has_data(revision, template) {
            return Some(*revision);
        }
    }
    None
}

/// The choice among these revisions, the newest last, by the `data` of the set's template.
pub(crate) fn choice_of<'a>(owned: &[RevisionView<'a>], template: &Tree) -> Chosen<'a>
    ensures { chosen result ≡ choice_of (data_of template.now) (objects_of owned.now) }
{
    let Some((newest, older)) = owned.split_last() else {
        return Chosen::Create;
    };
    if has_data(newest, template) {
        return Chosen::InPlace(*newest);
    }
    match newest_with(older, template) {
        Some(revision) => Chosen::Renumber(revision),
        None => Chosen::Create,
    }
}

/// The number of the newest of these revisions, or 0 if there is none.
pub(crate) fn greatest(owned: &[RevisionView<'_>]) -> u64
    ensures { result ≡ greatest (objects_of owned.now) }
{
    match owned.last() {
        Some(newest) => newest.number,
        None => 0,
    }
}

/// The first of these revisions that has the name.
fn find_named<'a>(owned: &[RevisionView<'a>], name: &str) -> Option<RevisionView<'a>>
    ensures { option_map (λ r. r.object.now) result ≡ named_among (objects_of owned.now) name.now }
{
    for revision in owned {
        if name == revision.name {
            return Some(*revision);
        }
    }
    None
}

/// The revision that `status.currentRevision` names.
pub(crate) fn named_current<'a>(set: &Set, owned: &[RevisionView<'a>]) -> Option<RevisionView<'a>>
    ensures { option_map (λ r. r.object.now) result ≡ named_current (set_parts set.now) (objects_of owned.now) }
{
    match &set.current {
        Some(name) => find_named(owned, name.as_str()),
        None => None,
    }
}

fn has_template(current: Option<RevisionView<'_>>) -> bool
    ensures { result ≡ option_map_or (λ r. is_some (template_of r.object.now)) current.entry true }
{
    match current {
        Some(revision) => revision.template().is_some(),
        None => true,
    }
}

/// Whether the greatest number is not too large, once this choice is carried out.
fn numbers_fit(owned: &[RevisionView<'_>], choice: Chosen<'_>) -> bool
    ensures { result ≡ nat_le (greatest_after (objects_of owned.now) (chosen choice.entry)) most_number }
{
    match choice {
        Chosen::InPlace(_) => greatest(owned) <= MAX_NUMBER,
        Chosen::Renumber(_) | Chosen::Create => greatest(owned) < MAX_NUMBER,
    }
}

/// Whether no number is too large, neither a listed one nor one that is written, and pods can be made from the current
/// revision.
pub(crate) fn is_sound(set: &Set, owned: &[RevisionView<'_>], choice: Chosen<'_>) -> bool
    ensures { result ≡ is_sound (set_parts set.now) (objects_of owned.now) (chosen choice.entry) }
{
    numbers_fit(owned, choice) && has_template(named_current(set, owned))
}
