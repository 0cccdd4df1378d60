ghost use Rattle.std.specs.Prelude.{◌≡◌, IfOk, map};
ghost use Rattle.plain_store.specs.Store.{collection};

use objects::{Kind, Memory, Object, Text};
use plain_store::Trees;
use std::alloc::{AllocError, Global};

/// The objects of the kind in the namespace.
pub(crate) fn listed(
    alloc: Global,
    store: &Trees,
    kind: Kind,
    namespace: &Text,
) -> Result<Vec<Object>, Memory>
    ensures { IfOk result (λ objects. objects.items ≡ collection store.now.objects kind namespace.now) }
{
    let found = store.list_now(kind, namespace)?;
    Ok(copies(alloc, found.as_slice())?)
}

fn copies(alloc: Global, objects: &[&Object]) -> Result<Vec<Object>, AllocError>
    ensures { IfOk result (λ copies. copies.items ≡ map (λ o. o.now) objects.now) }
{
    let mut copies = Vec::with_capacity(alloc, objects.len())?;
    for object in objects {
        copies.push((*object).clone()?)?;
    }
    Ok(copies)
}
