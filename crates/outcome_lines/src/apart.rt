// Lines for a person, each with the number of the first of the ends that are alike.
ghost use Rattle.std.specs.Prelude.{◌≡◌, ◌++◌, ◌||◌, ℕ, List, not, bytes_eq, string_bytes, IfOk, OnOk};
ghost use Rattle.outcome_lines.specs.Brief.{brief_count, brief_line, counted, is_among};
ghost use Rattle.outcome_lines.specs.ObjectWords.{lists_in};

use indexmap::IndexSet;
use std::alloc::{AllocError, Global};

/// The keys of the ends that were seen.
pub(crate) type Keys = IndexSet<Vec<u8>>;

/// Adds the key, and says whether it is new.
pub(crate) fn note_key(key: Vec<u8>, seen: &mut Keys) -> Result<bool, AllocError>
    ensures new { IfOk result (λ new. new ≡ not (is_among (lists_in seen.old.keys) key.items)) }
    ensures seen { OnOk result ((t : List ℕ) → is_among (lists_in seen.new.keys) t ≡ (bytes_eq t key.items || is_among (lists_in seen.old.keys) t)) }
{
    match seen.insert_full(key) {
        Ok((_, new)) => Ok(new),
        Err(refused) => {
            drop(refused);
            Err(AllocError)
        }
    }
}

/// Appends a line.
pub(crate) fn put_line(
    alloc: Global,
    number: usize,
    words: &[u8],
    out: &mut Vec<u8>,
) -> Result<(), AllocError>
    ensures { OnOk result (out.new.items ≡ out.old.items ++ brief_line number words.now) }
{
    let head = format!(in alloc; "{number}:")?;
    out.extend_from_slice(head.as_bytes())?;
    out.extend_from_slice(words)?;
    out.extend_from_slice("\n".as_bytes())
}

/// Appends the last line, of how many ends are told apart, and how many there are.
pub(crate) fn put_count(
    alloc: Global,
    noun: &str,
    apart: usize,
    all: usize,
    out: &mut Vec<u8>,
) -> Result<(), AllocError>
    ensures { OnOk result (out.new.items ≡ out.old.items ++ brief_count noun.now apart all) }
{
    let mut text = String::new(alloc);
    put_counts(noun, apart, all, &mut text)?;
    out.extend_from_slice(text.as_bytes())
}

fn put_counts(noun: &str, apart: usize, all: usize, out: &mut String) -> Result<(), AllocError>
    ensures { OnOk result (string_bytes out.new ≡ string_bytes out.old ++ brief_count noun.now apart all) }
{
    put_counted(noun, apart, out)?;
    write!(out, ", {all} with their versions\n")
}

fn put_counted(noun: &str, count: usize, out: &mut String) -> Result<(), AllocError>
    ensures { OnOk result (string_bytes out.new ≡ string_bytes out.old ++ counted noun.now count) }
{
    if count == 1 {
        return write!(out, "{count} {noun}");
    }
    write!(out, "{count} {noun}s")
}
