// How a change gets its number, and what is kept of it.
ghost use Rattle.std.specs.Prelude.{◌≡◌, ◌≢◌, ◌≤◌, ◌==◌, IfOk, OnOk, OnErr};
ghost use Rattle.plain_store.specs.Reached.{IsReached};
ghost use Rattle.plain_store.specs.Store.{with_next};
ghost use Rattle.requests.specs.ChangeKinds.{stored_by};

use crate::store::Plain;
use objects::{Key, Memory, Printed};
use packed::{Packed, Packer};
use requests::ChangeKind;
use version_map::VersionMap;

impl Plain {
    /// Allocates the next number for a change of that kind, which leaves this text under its key, or nothing. All
    /// allocations of memory that may fail come before it.
    pub(super) fn put(&mut self, kind: ChangeKind, key: &Key, text: &Printed) -> Result<(), Memory>
        requires room { self.old.counter ≢ self.old.capacity }
        requires reached { IsReached (with_next self.old key.now (stored_by kind text.now)) }
        ensures put { OnOk result (self.new ≡ with_next self.old key.now (stored_by kind text.now)) }
        ensures memory { OnErr result (self.new ≡ self.old) }
    {
        let state = stored(
            &mut self.packer,
            &self.versions,
            self.counter,
            kind,
            key,
            text,
        )?;
        self.versions.make_room(key)?;
        self.versions.push(self.counter + 1, state);
        self.counter += 1;
        self.set_tombstone_if_removed(kind, key);
        Ok(())
    }

    /// Gives the key a tombstone if the change is its removal, so that a list of what is there does not walk over it.
    fn set_tombstone_if_removed(&mut self, kind: ChangeKind, key: &Key)
        ensures { self.new ≡ self.old }
    {
        let _ = &self.versions;
        match kind {
            ChangeKind::Creation | ChangeKind::Update | ChangeKind::Mark => {}
            ChangeKind::Removal => self.versions.set_tombstone(key),
        }
    }

    /// The newest revision, 0 if none is allocated.
    pub fn revision(&self) -> u64
        ensures { result ≡ self.now.counter }
    {
        self.counter
    }

    /// Whether all revisions are allocated.
    pub fn is_full(&self) -> bool
        ensures { result ≡ (self.now.counter == self.now.capacity) }
    {
        self.counter == self.capacity
    }
}

/// What a change of that kind leaves of the text of its object, packed over the base of its set, or else over that of
/// what its key was at a number.
fn stored(
    packer: &mut Packer,
    versions: &VersionMap<Packed>,
    number: u64,
    kind: ChangeKind,
    key: &Key,
    text: &Printed,
) -> Result<Option<Packed>, Memory>
    requires { versions.now.floor ≤ number }
    ensures { IfOk result (λ state. state ≡ stored_by kind text.now) }
{
    match kind {
        ChangeKind::Creation | ChangeKind::Update | ChangeKind::Mark => {
            if let Some(packed) = packer.pack_in_set(key, text)? {
                return Ok(Some(packed));
            }
            Ok(Some(packer.pack(key, text, versions.at(key, number))?))
        }
        ChangeKind::Removal => Ok(None),
    }
}
