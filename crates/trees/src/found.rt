// Members of a map by their keys, while the map is read and a later value of a key may still replace an earlier one.
ghost use Rattle.std.specs.Prelude.{◌≡◌, false, IfOk, IfSome, option_map};
ghost use Rattle.serde_json.specs.Written.{members_have_float};
ghost use Rattle.trees.specs.Tree.{members_of, AreAscending};
ghost use Rattle.trees.specs.Integral.{found_in, found_of, all_integral};

use crate::text::Text;
use crate::tree::Tree;
use memory::Memory;
use std::alloc::{AllocError, Global};
use std::collections::BTreeMap;

/// These entries by their keys.
pub(crate) fn by_key(
    alloc: Global,
    entries: Vec<(Text, Tree)>,
) -> Result<BTreeMap<Text, Option<Tree>>, Memory>
    requires ascending { AreAscending (members_of entries.items) }
    requires integral { members_have_float (members_of entries.items) ≡ false }
    ensures { IfOk result (λ found. found_of found.entries ≡ found_in (members_of entries.items)) }
{
    let mut found = BTreeMap::new(alloc);
    for (name, value) in entries {
        // No key occurs twice, so no value was there before.
        drop(found.insert(name, Some(value))?);
    }
    Ok(found)
}

/// The entries of these members, or `None` if a value is not integral.
pub(crate) fn integral_entries(
    alloc: Global,
    found: BTreeMap<Text, Option<Tree>>,
) -> Result<Option<Vec<(Text, Tree)>>, AllocError>
    ensures entries { IfOk result (λ v. option_map (λ es. members_of es.items) v ≡ all_integral (found_of found.entries)) }
    ensures ascending { IfOk result (λ v. IfSome v (λ es. AreAscending (members_of es.items))) }
{
    let mut entries = Vec::with_capacity(alloc, found.len())?;
    for (key, value) in found {
        match value {
            Some(value) => entries.push((key, value))?,
            None => return Ok(None),
        }
    }
    Ok(Some(entries))
}
