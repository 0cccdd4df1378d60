// Gets and lists, which change nothing.
ghost use Rattle.std.specs.Prelude.{◌≡◌, ◌≤◌, map, IfOk};
ghost use Rattle.std.specs.FinMap as finite;
ghost use Rattle.std.specs.Option.{option_copied};
ghost use Rattle.plain_store.specs.Store.{found, map_at, step};
ghost use Rattle.requests.specs.declared.reply.Reply.TheVariants.{Listed};
ghost use Rattle.requests.specs.declared.request.Request.TheVariants.{List as ListRequest};
ghost use Rattle.version_map.specs.Keyed.{collection};

use crate::tree_store::Trees;
use objects::{Key, Kind, Memory, Object, Text};
use requests::{Listing, Reason, Reply};
use std::alloc::{AllocError, Global};

impl Trees {
    /// The object of that key.
    pub fn find(&self, key: &Key) -> Option<&Object>
        ensures { option_copied result ≡ finite.get self.now.objects key.now }
    {
        self.versions.at(key, self.counter)
    }

    /// The objects of the kind in the namespace as they are. It visits no removed objects, so its time does not grow
    /// with them.
    pub fn list_now(&self, kind: Kind, namespace: &Text) -> Result<Vec<&Object>, Memory>
        ensures { IfOk result (λ objects. map (λ o. o.now) objects.items ≡ collection self.now.objects kind namespace.now) }
    {
        self.versions.list_at(kind, namespace, self.counter)
    }

    /// The objects of the kind in the namespace as they were at a number that can be read (`denied`).
    pub fn list_at(&self, kind: Kind, namespace: &Text, number: u64) -> Result<Vec<&Object>, Memory>
        requires { (self.now.floor ≤ number) × (number ≤ self.now.counter) }
        ensures { IfOk result (λ objects. map (λ o. o.now) objects.items ≡ collection (map_at self.now number) kind namespace.now) }
    {
        self.versions.list_at(kind, namespace, number)
    }

    /// The reply to a get.
    pub(super) fn get(&self, key: &Key) -> Result<Reply, Memory>
        ensures { IfOk result (λ reply. reply ≡ found (finite.get self.now.objects key.now)) }
    {
        match self.find(key) {
            Some(object) => Ok(Reply::Found(object.clone()?)),
            None => Ok(Reply::Refused(Reason::NotFound)),
        }
    }

    /// The reply to a list, at that resource version if it is not 0.
    pub(super) fn list(&self, kind: Kind, namespace: &Text, exact: u64) -> Result<Reply, Memory>
        ensures { IfOk result (λ reply. (self.now, reply) ≡ step self.now (ListRequest kind namespace.now exact)) }
    {
        if exact == 0 {
            let objects = self.list_now(kind, namespace)?;
            return Ok(listed(self.alloc, objects.as_slice(), self.revision())?);
        }
        match self.denied(exact) {
            Some(reason) => Ok(Reply::Refused(reason)),
            None => {
                let objects = self.list_at(kind, namespace, exact)?;
                Ok(listed(self.alloc, objects.as_slice(), exact)?)
            }
        }
    }
}

/// The reply that lists copies of the objects.
fn listed(alloc: Global, objects: &[&Object], revision: u64) -> Result<Reply, AllocError>
    ensures { IfOk result (λ reply. reply ≡ Listed (map (λ o. o.now) objects.now) revision) }
{
    let mut copies = Vec::with_capacity(alloc, objects.len())?;
    for object in objects {
        copies.push((*object).clone()?)?;
    }
    Ok(Reply::Listed {
        objects: Listing::from(copies),
        revision,
    })
}
