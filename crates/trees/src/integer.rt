ghost use Rattle.std.specs.Prelude.{◌≡◌, ◌++◌, ◌∷◌, [], pos, Some, OnOk};
ghost use Rattle.serde_json.specs.Find.{as_u64, of_integer};

use json::Writer;
use std::alloc::AllocError;
use std::marker::Model;

/// An integer that fits 64 bits, unsigned or signed.
#[derive(Drop)]
pub struct Integer {
    number: Number,
}

// A signed one is below zero, so that each number has one form.
#[derive(Clone, Copy, Drop)]
pub(crate) enum Number {
    Count(u64),
    Below(i64),
}

impl Model for Integer {
    ghost use Rattle.std.specs.Prelude.{ℤ};

    ghost Value = { ℤ };

    ghost use Rattle.trees.specs.Integer.{number_of, IsInteger};

    ghost view = { λ w. number_of w.number };

    ghost invariant = { λ w. IsInteger w.number };
}

impl Integer {
    /// The number, if it fits 64 bits unsigned.
    pub fn as_u64(&self) -> Option<u64>
        ensures { result ≡ as_u64 (of_integer self.now) }
    {
        match self.number {
            Number::Count(count) => Some(count),
            Number::Below(_) => None,
        }
    }
}

impl Integer {
    ghost use Rattle.trees.specs.Same.{same_numbers};

    /// Whether both are the same number.
    pub(crate) fn is_same(&self, other: &Integer) -> bool
        ensures { result ≡ same_numbers (of_integer self.now) (of_integer other.now) }
    {
        match self.number {
            Number::Count(count) => match other.number {
                Number::Count(other) => count == other,
                Number::Below(_) => false,
            },
            Number::Below(number) => match other.number {
                Number::Count(_) => false,
                Number::Below(other) => number == other,
            },
        }
    }
}

impl Integer {
    ghost use Rattle.json.specs.Token.{number as number_token};
    ghost use Rattle.serde_json.specs.Read.{number_of};
    ghost use Rattle.serde_json.specs.Written.{number_text};

    /// Writes the number in decimal.
    pub(crate) fn write(&self, out: &mut Writer) -> Result<(), AllocError>
        ensures tokens { OnOk result (out.new.tokens ≡ out.old.tokens ++ number_token (number_text (of_integer self.now)) ∷ []) }
        ensures before { out.new.before ≡ out.old.before }
        ensures canonical { number_of (number_text (of_integer self.now)) ≡ Some (of_integer self.now) }
    {
        match self.number {
            Number::Count(count) => out.u64(count),
            Number::Below(number) => out.i64(number),
        }
    }
}

impl From<u64> for Integer {
    ghost from_gives = { λ n w. w ≡ pos n };

    fn from(count: u64) -> Integer {
        Integer {
            number: Number::Count(count),
        }
    }
}

impl From<i64> for Integer {
    ghost from_gives = { λ z w. w ≡ z };

    fn from(number: i64) -> Integer {
        if number < 0 {
            Integer {
                number: Number::Below(number),
            }
        } else {
            Integer {
                number: Number::Count(number as u64),
            }
        }
    }
}

impl Clone for Integer {
    ghost is_clone = { λ old new. new ≡ old };

    fn clone(&self) -> Result<Integer, AllocError> {
        Ok(Integer {
            number: self.number,
        })
    }
}
