// The entries of a map: the position of a key, and entries copied, put in or removed.
ghost use Rattle.std.specs.Prelude.{◌≡◌, ◌<◌, IfOk, IfErr, OnOk, OnErr, Some};
ghost use Rattle.serde_json.specs.Data.{put};
ghost use Rattle.trees.specs.Tree.{data_of, members_of, AreAscending};
ghost use Rattle.trees.specs.Positions.{IsAt, IsGap, goes_last};
ghost use Rattle.trees.specs.Members.{without_member};

use crate::text::Text;
use crate::tree::Tree;
use std::alloc::{AllocError, Global};
use std::cmp::Ordering;

/// Whether the key is above the last one.
pub(crate) fn goes_last(entries: &[(Text, Tree)], key: &str) -> bool
    ensures { result ≡ goes_last key.now entries.now }
{
    match entries.last() {
        Some((last, _)) => last.as_str() < key,
        None => true,
    }
}

/// The position of the key among entries that ascend, or the one at which it would be inserted.
pub fn position_of(entries: &[(Text, Tree)], key: &str) -> Result<usize, usize>
    ensures found { IfOk result (λ i. IsAt key.now i entries.now) }
    ensures gap { IfErr result (λ i. IsGap key.now i entries.now) }
{
    // One by one, as most maps have few members.
    for (i, (name, _)) in entries.iter().enumerate() {
        match key.cmp(name.as_str()) {
            Ordering::Greater => {}
            Ordering::Equal => return Ok(i),
            Ordering::Less => return Err(i),
        }
    }
    Err(entries.len())
}

/// A copy of the entries, which shares what their lists and maps hold.
pub(crate) fn copied(
    alloc: Global,
    entries: &[(Text, Tree)],
) -> Result<Vec<(Text, Tree)>, AllocError>
    ensures { IfOk result (λ copies. copies.items ≡ entries.now) }
{
    let mut copies = Vec::with_capacity(alloc, entries.len())?;
    for (name, value) in entries {
        copies.push((name.clone()?, value.clone()?))?;
    }
    Ok(copies)
}

/// Puts a value at the key: it replaces the one there, or is inserted in order. An `Err` leaves the entries as they
/// were.
pub(crate) fn put_entry(
    entries: &mut Vec<(Text, Tree)>,
    key: Text,
    value: Tree,
) -> Result<(), AllocError>
    ensures ok { OnOk result (members_of entries.new.items ≡ put key (data_of value) (members_of entries.old.items)) }
    ensures err { OnErr result (entries.new.items ≡ entries.old.items) }
{
    match position_of(entries, key.as_str()) {
        Ok(at) => entries[at].1 = value,
        Err(at) => entries.insert(at, (key, value))?,
    }
    Ok(())
}

/// Removes the entry of the key, if there is one.
pub(crate) fn remove_entry(entries: &mut Vec<(Text, Tree)>, key: &str)
    requires { AreAscending (members_of entries.old.items) }
    ensures { members_of entries.new.items ≡ without_member key.now (members_of entries.old.items) }
{
    if let Ok(at) = position_of(entries, key) {
        entries.remove(at);
    }
}
