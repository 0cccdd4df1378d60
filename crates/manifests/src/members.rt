// Members of a map: how they are found and put over others.
ghost use Rattle.std.specs.Prelude.{◌≡◌, ◌<◌, ◌+◌, length, option_map, IfNone, IfOk, IfSome};
ghost use Rattle.serde_json.specs.Data.{member, no_members};
ghost use Rattle.objects.specs.Object.{object_at};
ghost use Rattle.objects.specs.Tree.{AreAscending, data_of, members_of};
ghost use Rattle.manifests.specs.Template.{part, part_in, with_all};

use objects::{Members, Text, Tree};
use std::alloc::{AllocError, Global};
use std::cmp::Ordering;

/// The value of a member, if it is a map.
pub(crate) fn map_at<'a>(members: &'a Members, key: &str) -> Option<&'a Members>
    ensures { option_map (λ m. m.now) result ≡ object_at key.now members.now }
{
    members.get(key)?.as_map()
}

/// The members of a part.
pub(crate) fn part(alloc: Global, members: &Members, key: &str) -> Result<Members, AllocError>
    ensures { IfOk result (λ found. found ≡ part key.now members.now) }
{
    match map_at(members, key) {
        Some(found) => found.clone(),
        None => Members::none(alloc),
    }
}

/// A part as it is there, if it is a map.
pub(crate) fn part_in(members: &Members, key: &str) -> Result<Option<Tree>, AllocError>
    ensures { IfOk result (λ found. option_map data_of found ≡ part_in key.now members.now) }
{
    match map_at(members, key) {
        Some(found) => Ok(Some(Tree::Map(found.clone()?))),
        None => Ok(None),
    }
}

/// The first of the entries of two maps, and those that are left of each.
#[derive(Clone, Copy)]
struct First<'a> {
    entry: &'a (Text, Tree),
    under: &'a [(Text, Tree)],
    over: &'a [(Text, Tree)],
}

/// The entry that comes first when the entries `over` are put over the others. Of a key that both have it is that of
/// `over`.
fn first_of<'a>(under: &'a [(Text, Tree)], over: &'a [(Text, Tree)]) -> Option<First<'a>>
    requires { AreAscending (members_of over.now) }
    ensures first { IfSome result (λ first. with_all (members_of over.now) (members_of under.now)
        ≡ member first.entry.now.0 (data_of first.entry.now.1) (with_all (members_of first.over.now) (members_of first.under.now))) }
    ensures ascending { IfSome result (λ first. AreAscending (members_of first.over.now)) }
    ensures fewer { IfSome result (λ first. length first.under.now + length first.over.now < length under.now + length over.now) }
    ensures none { IfNone result (with_all (members_of over.now) (members_of under.now) ≡ no_members) }
{
    let Some((new, later)) = over.split_first() else {
        let (entry, below) = under.split_first()?;
        return Some(First {
            entry,
            under: below,
            over,
        });
    };
    let Some((old, below)) = under.split_first() else {
        return Some(First {
            entry: new,
            under,
            over: later,
        });
    };
    match old.0.as_str().cmp(new.0.as_str()) {
        Ordering::Less => Some(First {
            entry: old,
            under: below,
            over,
        }),
        Ordering::Equal => Some(First {
            entry: new,
            under: below,
            over: later,
        }),
        Ordering::Greater => Some(First {
            entry: new,
            under,
            over: later,
        }),
    }
}

/// The entries with those `over` put over them. Each is looked at once.
fn merge(
    alloc: Global,
    under: &[(Text, Tree)],
    over: &[(Text, Tree)],
) -> Result<Vec<(Text, Tree)>, AllocError>
    requires { AreAscending (members_of over.now) }
    ensures { IfOk result (λ all. members_of all.items ≡ with_all (members_of over.now) (members_of under.now)) }
{
    let mut all = Vec::new(alloc);
    let mut left = under;
    let mut more = over;
    'entries: while let Some(first) = first_of(left, more) {
        let (key, value) = first.entry;
        all.push((key.clone()?, value.clone()?))?;
        left = first.under;
        more = first.over;
    }
    Ok(all)
}

/// The members, with these put over them.
pub(crate) fn with_all(
    alloc: Global,
    members: &Members,
    more: &Members,
) -> Result<Members, AllocError>
    ensures { IfOk result (λ ms. ms ≡ with_all more.now members.now) }
{
    let all = merge(alloc, members.entries(), more.entries())?;
    Members::of(alloc, all)
}
