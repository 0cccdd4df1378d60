ghost use Rattle.std.specs.Prelude.{◌≡◌, IfOk, IfSome};

use std::alloc::{AllocError, Global};
use std::marker::Model;

/// A delta, which a clause sees as its bytes. Those of small objects are short, and are stored in the value itself:
/// then a version needs no block of its own, and reading it touches one place less in memory.
#[derive(Drop)]
pub(crate) struct Delta {
    form: Form,
}

#[derive(Drop)]
pub(crate) enum Form {
    Short(Short),
    Long(Vec<u8>),
}

impl Model for Delta {
    ghost use Rattle.std.specs.Prelude.{List, ℕ};
    ghost use Rattle.packed.specs.Delta.{bytes_of};

    ghost Value = { List ℕ };

    ghost view = { λ d. bytes_of d.form };
}

impl Delta {
    /// The bytes, copied.
    pub(crate) fn copy_of(alloc: Global, bytes: &[u8]) -> Result<Delta, AllocError>
        ensures { IfOk result (λ d. d ≡ bytes.now) }
    {
        let form = match Short::of(bytes) {
            Some(short) => Form::Short(short),
            None => Form::Long(Vec::from_slice(alloc, bytes)?),
        };
        Ok(Delta { form })
    }

    pub(crate) fn as_slice(&self) -> &[u8]
        ensures { result.now ≡ self.now }
    {
        match &self.form {
            Form::Short(short) => short.as_slice(),
            Form::Long(long) => long.as_slice(),
        }
    }
}

/// The most bytes that are held so. With the count before them and the mark of a variant they fill seven words.
const MOST: usize = 54;

/// At most 54 bytes, which a clause sees as these.
#[derive(Drop)]
pub(crate) struct Short {
    count: u8,
    bytes: [u8; MOST],
}

impl Model for Short {
    ghost use Rattle.std.specs.Prelude.{◌≡◌, ◌≤◌, ℕ, List, length, take};

    ghost Value = { List ℕ };

    ghost view = { λ s. take s.count s.bytes };

    ghost invariant = { λ s. (s.count ≤ 54) × (length s.bytes ≡ 54) };
}

impl Short {
    /// The bytes, if they are few enough.
    pub(crate) fn of(slice: &[u8]) -> Option<Short>
        ensures { IfSome result (λ s. s ≡ slice.now) }
    {
        let count = slice.len();
        if MOST < count {
            return None;
        }
        let mut bytes = [0_u8; MOST];
        bytes[..count].copy_from_slice(slice);
        Some(Short {
            count: count as u8,
            bytes,
        })
    }

    pub(crate) fn as_slice(&self) -> &[u8]
        ensures { result.now ≡ self.now }
    {
        &self.bytes[..self.count as usize]
    }
}
