// Writes, and how a change gets its number.
ghost use Rattle.std.specs.Prelude.{◌≡◌, ◌≢◌, ◌+◌, true, IfOk, OnErr, OnOk};
ghost use Rattle.plain_store.specs.Reached.{IsReached};
ghost use Rattle.plain_store.specs.Store.{carried_out, step, with_next};
ghost use Rattle.requests.specs.Change.{stamp};
ghost use Rattle.requests.specs.ChangeKinds.{change_by, stored_by};
ghost use Rattle.requests.specs.Verdict.{is_write};
ghost use Rattle.requests.specs.declared.verdict.Verdict.TheVariants.{Write};

use crate::tree_store::Trees;
use objects::{Key, Memory, Object};
use requests::{ChangeKind, Judgment, Reason, Reply, Request, judge};
use std::alloc::AllocError;

impl Trees {
    /// Handles a write.
    pub(super) fn write(&mut self, request: Request) -> Result<Reply, Memory>
        requires { is_write request ≡ true }
        ensures step { IfOk result (λ reply. (self.new, reply) ≡ step self.old request) }
        ensures memory { OnErr result (self.new ≡ self.old) }
    {
        let _ = &self.versions;
        let Some(key) = request.key() else {
            unreachable!();
        };
        match judge(self.find(key), request)? {
            Judgment::Refuse(reason) => Ok(Reply::Refused(reason)),
            Judgment::Same(object) => Ok(Reply::Unchanged(object)),
            Judgment::Write(kind, object) => self.carry_out(kind, object),
        }
    }

    /// Makes the change at the next number, if one is left.
    fn carry_out(&mut self, kind: ChangeKind, object: Object) -> Result<Reply, Memory>
        requires { IsReached (carried_out self.old object.key (Write (change_by kind object))).0 }
        ensures step { IfOk result (λ reply. (self.new, reply) ≡ carried_out self.old object.key (Write (change_by kind object))) }
        ensures memory { OnErr result (self.new ≡ self.old) }
    {
        if self.counter == self.capacity {
            drop(object);
            return Ok(Reply::Refused(Reason::StoreFull));
        }
        let object = self.stamped(kind, object);
        match self.put(kind, key_of(&object), &object) {
            Ok(()) => Ok(kind.accepted(object)),
            Err(error) => {
                drop(object);
                Err(error)
            }
        }
    }

    /// The object as the next number leaves it.
    fn stamped(&self, kind: ChangeKind, object: Object) -> Object
        requires { self.now.counter ≢ self.now.capacity }
        ensures { result ≡ stamp (change_by kind object) (self.now.counter + 1) }
    {
        let _ = &self.versions;
        kind.stamped(object, self.counter + 1)
    }

    /// Allocates the next number for a change of that kind, which leaves this object under its key, or nothing. All
    /// allocations of memory that may fail come before it.
    fn put(&mut self, kind: ChangeKind, key: &Key, object: &Object) -> Result<(), Memory>
        requires room { self.old.counter ≢ self.old.capacity }
        requires reached { IsReached (with_next self.old key.now (stored_by kind object.now)) }
        ensures put { OnOk result (self.new ≡ with_next self.old key.now (stored_by kind object.now)) }
        ensures memory { OnErr result (self.new ≡ self.old) }
    {
        let state = stored(kind, object)?;
        self.versions.make_room(key)?;
        self.versions.push(self.counter + 1, state);
        self.counter += 1;
        self.set_tombstone_if_removed(kind, key);
        Ok(())
    }

    /// Gives the key a tombstone if the change is its removal, so that a list of what is there does not walk over it.
    fn set_tombstone_if_removed(&mut self, kind: ChangeKind, key: &Key)
        ensures { self.new ≡ self.old }
    {
        let _ = &self.versions;
        match kind {
            ChangeKind::Creation | ChangeKind::Update | ChangeKind::Mark => {}
            ChangeKind::Removal => self.versions.set_tombstone(key),
        }
    }
}

/// What a change of that kind leaves of its object.
fn stored(kind: ChangeKind, object: &Object) -> Result<Option<Object>, AllocError>
    ensures { IfOk result (λ state. state ≡ stored_by kind object.now) }
{
    match kind {
        ChangeKind::Creation | ChangeKind::Update | ChangeKind::Mark => Ok(Some(object.clone()?)),
        ChangeKind::Removal => Ok(None),
    }
}

fn key_of(object: &Object) -> &Key
    ensures { result.now ≡ object.now.key }
{
    &object.key
}
