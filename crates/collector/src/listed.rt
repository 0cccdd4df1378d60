// The UIDs of the objects in lists, as a set of numbers.
ghost use Rattle.std.specs.Prelude.{◌≡◌, ◌==◌, ◌||◌, ℕ, IfOk, OnOk, map};
ghost use Rattle.std.specs.List.{list_any};
ghost use Rattle.std.specs.BTreeSet.{contains};
ghost use Rattle.std.specs.Ordering.{nat_cmp};
ghost use Rattle.collector.specs.Collectable.{is_listed};

use objects::{Memory, Object};
use std::alloc::Global;
use std::collections::BTreeSet;

/// The UIDs of all objects of these lists.
pub(crate) fn uids_in(alloc: Global, lists: &[&[Object]]) -> Result<BTreeSet<u64>, Memory>
    ensures { IfOk result (λ uids. (n : ℕ) → contains nat_cmp uids n ≡ is_listed (map (λ list. list.now) lists.now) n) }
{
    let mut uids = BTreeSet::new(alloc);
    for list in lists {
        put_uids(&mut uids, list)?;
    }
    Ok(uids)
}

fn put_uids(uids: &mut BTreeSet<u64>, objects: &[Object]) -> Result<(), Memory>
    ensures { OnOk result ((n : ℕ) → contains nat_cmp uids.new n
        ≡ (contains nat_cmp uids.old n || list_any (λ o. o.meta.uid == n) objects.now)) }
{
    for object in objects {
        uids.insert(object.meta.uid)?;
    }
    Ok(())
}
