ghost use Rattle.std.specs.Prelude.{◌≡◌, IfOk, IfSome};

use crate::delta::Delta;
use crate::difference::write_delta;
use crate::packed::Packed;
use memchr::memrchr;
use objects::{Key, Memory, Printed};
use std::alloc::{AllocError, Global};
use std::collections::BTreeMap;
use std::sync::Arc;

/// How many bases are kept at hand.
const BASES: u32 = 1_024;

/// How many bytes such a base has at most: it takes memory even once no object needs it.
const LONGEST: usize = 65_536;

/// Packs objects, each over the text of one much like it.
#[derive(Drop)]
pub struct Packer {
    alloc: Global,
    bases: BTreeMap<u32, Arc<String>>,
    buffer: Vec<u8>,
}

impl Packer {
    /// A packer that has packed nothing.
    pub fn new(alloc: Global) -> Packer {
        Packer {
            alloc,
            bases: BTreeMap::new(alloc),
            buffer: Vec::new(alloc),
        }
    }

    /// The object packed over the base of its set, if that takes at most a quarter of the bytes of its text and 16
    /// more.
    pub fn pack_in_set(&mut self, key: &Key, object: &Printed) -> Result<Option<Packed>, Memory>
        ensures { IfOk result (λ found. IfSome found (λ packed. packed ≡ object.now)) }
    {
        match self.bases.get(&slot_of(key)) {
            Some(base) => Ok(packed_by(self.alloc, base, object, &mut self.buffer)?),
            None => Ok(None),
        }
    }

    /// The object packed over the base of one that had its key before, if that does as well. Else its text becomes the
    /// base of its set.
    pub fn pack(
        &mut self,
        key: &Key,
        object: &Printed,
        before: Option<&Packed>,
    ) -> Result<Packed, Memory>
        ensures { IfOk result (λ packed. packed ≡ object.now) }
    {
        if let Some(before) = before {
            if let Some(packed) = packed_by(self.alloc, &before.base, object, &mut self.buffer)? {
                return Ok(packed);
            }
        }
        let base = Arc::new(self.alloc, String::from_str(self.alloc, object.as_str())?)?;
        if base.len() <= LONGEST {
            self.bases.insert(slot_of(key), Arc::try_clone(&base)?)?;
        }
        // An empty delta encodes the base itself.
        Ok(Packed::of(base, Delta::copy_of(self.alloc, &[])?, object))
    }
}

// The object packed over a base, if that takes no more than a quarter of its text and 16 bytes. A base of more than
// four times its length is not used, so that what a packed object keeps in memory is in proportion to its text.
fn packed_by(
    alloc: Global,
    base: &Arc<String>,
    object: &Printed,
    buffer: &mut Vec<u8>,
) -> Result<Option<Packed>, AllocError>
    ensures { IfOk result (λ found. IfSome found (λ packed. packed ≡ object.now)) }
{
    let text = object.as_str().as_bytes();
    if text.len().saturating_mul(4) < base.len() {
        return Ok(None);
    }
    buffer.clear();
    if write_delta(base.as_bytes(), text, text.len() / 4 + 16, buffer)? {
        let delta = Delta::copy_of(alloc, buffer.as_slice())?;
        Ok(Some(Packed::of(Arc::try_clone(base)?, delta, object)))
    } else {
        Ok(None)
    }
}

// Objects of one kind and namespace whose names differ only after their last hyphen are of one set, and much alike.
fn slot_of(key: &Key) -> u32 {
    let name = key.name.as_str().as_bytes();
    let set = match memrchr(b'-', name) {
        Some(end) => &name[..end],
        None => name,
    };
    // The sum may wrap, and two sets may share a slot: their objects are then packed less well, and no worse than that.
    let mut sum = key.kind as u32;
    for byte in key.namespace.as_str().as_bytes() {
        sum = sum.wrapping_mul(31).wrapping_add(u32::from(*byte));
    }
    for byte in set {
        sum = sum.wrapping_mul(31).wrapping_add(u32::from(*byte));
    }
    sum % BASES
}
