ghost use Rattle.std.specs.Prelude.{◌≡◌, IfOk, map};
ghost use Rattle.std.specs.BTreeSet.{contains};
ghost use Rattle.std.specs.Ordering.{nat_cmp};
ghost use Rattle.collector.specs.Collectable.{are_gone, collection, deletion, is_collectable, is_gone, owner_number};
ghost use Rattle.objects.specs.Tree.{data_of, items_of};

use crate::listed::uids_in;
use objects::{Memory, Object, Tree, uid_number};
use requests::{Request, uid_precondition, version_precondition};
use std::alloc::Global;
use std::collections::BTreeSet;

/// The deletes of the claims that no longer have an owner: those with owner references, each of whose owners is gone
/// for good. `owners` are lists of all objects that may own a claim, of the namespace of the claims, and `listed_at` is
/// the least resource version of these lists. An owner is gone if its UID has a number of at most `listed_at` and no
/// listed object has it, or if it is none that the store gives. So an owner that was created after the lists were read
/// keeps its claim.
///
/// Each delete names the UID and the resource version of the claim as it was read, and no time, so it spares a claim
/// that has changed since, or a successor of the same name. The cost is that of the owners and the claims, each read
/// once.
pub fn collect(
    alloc: Global,
    claims: &[Object],
    owners: &[&[Object]],
    listed_at: u64,
) -> Result<Vec<Request>, Memory>
    ensures { IfOk result (λ requests. requests.items ≡ collection claims.now (map (λ list. list.now) owners.now) listed_at) }
{
    let listed = uids_in(alloc, owners)?;
    let mut deletes = Vec::new(alloc);
    for claim in claims {
        if is_collectable(claim, &listed, listed_at) {
            deletes.push(deletion(alloc, claim)?)?;
        }
    }
    Ok(deletes)
}

fn is_collectable(claim: &Object, listed: &BTreeSet<u64>, listed_at: u64) -> bool
    ensures { result ≡ is_collectable listed_at (contains nat_cmp listed.now) claim.now }
{
    let owners = claim.owners();
    !owners.is_empty() && are_gone(owners, listed, listed_at)
}

fn are_gone(owners: &[Tree], listed: &BTreeSet<u64>, listed_at: u64) -> bool
    ensures { result ≡ are_gone listed_at (contains nat_cmp listed.now) (items_of owners.now) }
{
    for owner in owners {
        if !is_gone(owner_number(owner), listed, listed_at) {
            return false;
        }
    }
    true
}

fn is_gone(owner: Option<u64>, listed: &BTreeSet<u64>, listed_at: u64) -> bool
    ensures { result ≡ is_gone listed_at (contains nat_cmp listed.now) owner }
{
    match owner {
        Some(number) => number <= listed_at && !listed.contains(&number),
        None => true,
    }
}

/// The number of the UID that an owner reference names, if it is one that the store gives.
pub fn owner_number(owner: &Tree) -> Option<u64>
    ensures { result ≡ owner_number (data_of owner.now) }
{
    uid_number(owner.as_map()?.get("uid")?.as_text()?)
}

fn deletion(alloc: Global, claim: &Object) -> Result<Request, Memory>
    ensures { IfOk result (λ request. request ≡ deletion claim.now) }
{
    let key = claim.key.clone()?;
    let uid = uid_precondition(alloc, claim.meta.uid)?;
    let version = version_precondition(alloc, claim.meta.revision)?;
    Ok(Request::Delete {
        key,
        uid,
        version,
        at: None,
    })
}
