// Numbers by texts.
ghost use Rattle.std.specs.Prelude.{◌≡◌, ◌+◌, ℕ, List, bytes_eq, Some, OnOk, if◌then◌else◌};
ghost use Rattle.outcome_lines.specs.ObjectWords.{is_lower, lower, number_in, times_in, uid_if};

use indexmap::IndexMap;
use std::alloc::{AllocError, Global};

pub(crate) type Numbers = IndexMap<Vec<u8>, u64>;

pub(crate) fn number_of(numbers: &Numbers, text: &[u8]) -> Option<u64>
    ensures { result ≡ number_in numbers.now.entries text.now }
{
    numbers.get(text).copied()
}

pub(crate) fn times_of(numbers: &Numbers, text: &[u8]) -> u64
    ensures { result ≡ times_in numbers.now.entries text.now }
{
    number_of(numbers, text).unwrap_or(0)
}

fn set_number(
    alloc: Global,
    text: &[u8],
    number: u64,
    numbers: &mut Numbers,
) -> Result<(), AllocError>
    ensures { OnOk result ((t : List ℕ) → number_in numbers.new.entries t
        ≡ (if bytes_eq text.now t then Some number else number_in numbers.old.entries t)) }
{
    let key = text.to_vec(alloc)?;
    match numbers.insert(key, number) {
        Ok(_) => Ok(()),
        Err(refused) => {
            drop(refused);
            Err(AllocError)
        }
    }
}

/// Counts the text once more. No memory holds as many as would not be counted.
pub(crate) fn count(alloc: Global, text: &[u8], numbers: &mut Numbers) -> Result<(), AllocError>
    ensures { OnOk result ((t : List ℕ) → times_in numbers.new.entries t
        ≡ (if bytes_eq text.now t then 1 else 0) + times_in numbers.old.entries t) }
{
    let times = times_of(numbers, text);
    if times == u64::MAX {
        return Err(AllocError);
    }
    set_number(alloc, text, times + 1, numbers)
}

/// Notes the number for the text, unless a lower one is noted.
pub(crate) fn lower(
    alloc: Global,
    text: &[u8],
    number: u64,
    numbers: &mut Numbers,
) -> Result<(), AllocError>
    ensures { OnOk result ((t : List ℕ) → number_in numbers.new.entries t
        ≡ lower (number_in numbers.old.entries t) (uid_if (bytes_eq text.now t) number)) }
{
    let noted = number_of(numbers, text);
    let is_new = is_lower(number, noted);
    if is_new {
        return set_number(alloc, text, number, numbers);
    }
    Ok(())
}

fn is_lower(number: u64, noted: Option<u64>) -> bool
    ensures { result ≡ is_lower number noted }
{
    match noted {
        Some(noted) => number < noted,
        None => true,
    }
}
