// Gets and lists, which change nothing.
ghost use Rattle.std.specs.Prelude.{◌≡◌, ◌≤◌, true, IfOk};
ghost use Rattle.std.specs.FinMap as finite;
ghost use Rattle.std.specs.Option.{option_copied};
ghost use Rattle.plain_store.specs.Route.{is_read};
ghost use Rattle.plain_store.specs.Store.{denied, found, listed_at, map_at, step};
ghost use Rattle.version_map.specs.Keyed.{collection};
ghost use Rattle.plain_store.specs.PrintedReplies.{reply_stored};
ghost use Rattle.requests.specs.declared.reply.Reply.TheVariants.{Listed};

use crate::store::Plain;
use crate::stored_reply::StoredReply;
use objects::{Key, Kind, Memory, Text};
use packed::Packed;
use requests::{Reason, Request};

impl Plain {
    /// The reply to a get or a list, which change nothing, with the objects that the store keeps. A list at an exact
    /// resource version is refused as TooLarge above the counter, and as Expired below the floor.
    pub fn read(&self, request: &Request) -> Result<StoredReply<'_>, Memory>
        requires { is_read request.now ≡ true }
        ensures { IfOk result (λ stored. (self.now, reply_stored stored) ≡ step self.now request.now) }
    {
        match request {
            Request::Get(key) => Ok(self.get(key)),
            Request::List {
                kind,
                namespace,
                exact,
            } => {
                // 0 requests the list as it is now.
                if *exact == 0 {
                    self.list_now(*kind, namespace)
                } else {
                    self.list_exactly(*kind, namespace, *exact)
                }
            }
            Request::Create(_)
            | Request::Update(_)
            | Request::UpdateStatus(_)
            | Request::Delete {
                key: _,
                uid: _,
                version: _,
                at: _,
            }
            | Request::Compact { to: _ } => unreachable!(),
        }
    }

    /// The object of that key.
    fn find(&self, key: &Key) -> Option<&Packed>
        ensures { option_copied result ≡ finite.get self.now.objects key.now }
    {
        self.versions.at(key, self.counter)
    }

    fn get(&self, key: &Key) -> StoredReply<'_>
        ensures { reply_stored result ≡ found (finite.get self.now.objects key.now) }
    {
        match self.find(key) {
            Some(object) => StoredReply::Found(object),
            None => StoredReply::Refused(Reason::NotFound),
        }
    }

    /// A list at a number, unless it is denied.
    fn list_exactly(
        &self,
        kind: Kind,
        namespace: &Text,
        number: u64,
    ) -> Result<StoredReply<'_>, Memory>
        ensures { IfOk result (λ stored. reply_stored stored
            ≡ listed_at number (collection (map_at self.now number) kind namespace.now) (denied self.now.floor self.now.counter number)) }
    {
        match self.denied(number) {
            Some(reason) => Ok(StoredReply::Refused(reason)),
            None => self.list_at(kind, namespace, number),
        }
    }

    /// The objects of the kind in the namespace as they are. Its time is theirs: it does not walk over those that were
    /// removed.
    fn list_now(&self, kind: Kind, namespace: &Text) -> Result<StoredReply<'_>, Memory>
        ensures { IfOk result (λ stored. reply_stored stored ≡ Listed (collection self.now.objects kind namespace.now) self.now.counter) }
    {
        let objects = self.versions.list_at(kind, namespace, self.counter)?;
        Ok(StoredReply::Listed {
            objects,
            revision: self.counter,
        })
    }

    /// The objects of the kind in the namespace as they were at a number that can be read.
    fn list_at(&self, kind: Kind, namespace: &Text, number: u64) -> Result<StoredReply<'_>, Memory>
        requires { (self.now.floor ≤ number) × (number ≤ self.now.counter) }
        ensures { IfOk result (λ stored. reply_stored stored ≡ Listed (collection (map_at self.now number) kind namespace.now) number) }
    {
        let objects = self.versions.list_at(kind, namespace, number)?;
        Ok(StoredReply::Listed {
            objects,
            revision: number,
        })
    }
}
