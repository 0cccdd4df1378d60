// The lines after a plan in words: the claims that will be deleted.
ghost use Rattle.std.specs.Prelude.{◌≡◌, ◌++◌, IfOk, OnOk};
ghost use Rattle.reasons.specs.Why.{grounds};
ghost use Rattle.plan_lines.specs.Brief.{closing, further_names, lost_line};

use crate::brief::{put, put_two};
use objects::{Object, Text};
use reasons::{Why, claims_with_pods, claims_with_set};
use sets::Action;
use std::alloc::{AllocError, Global};

fn put_further(names: &[Text], text: &mut Vec<u8>) -> Result<(), AllocError>
    ensures { OnOk result (text.new.items ≡ text.old.items ++ further_names names.now) }
{
    for name in names {
        put_two(", ", name.as_str(), text)?;
    }
    Ok(())
}

fn put_lost(head: &str, names: &[Text], text: &mut Vec<u8>) -> Result<(), AllocError>
    ensures { OnOk result (text.new.items ≡ text.old.items ++ lost_line head.now names.now) }
{
    match names.split_first() {
        None => Ok(()),
        Some((first, others)) => {
            put_two(head, first.as_str(), text)?;
            put_further(others, text)?;
            put("\n", text)
        }
    }
}

/// The lines that a plan in words ends with: which of these claims are deleted with the pods that it deletes, and which
/// with the set, if it is being deleted. A line of no claims is left out.
pub fn closing_lines(
    alloc: Global,
    why: &Why,
    actions: &[Action],
    claims: &[Object],
) -> Result<Vec<u8>, AllocError>
    ensures { IfOk result (λ text. text.items ≡ closing (grounds why.now) actions.now claims.now) }
{
    let mut text = Vec::new(alloc);
    let lost = claims_with_pods(alloc, why.set(), actions, claims)?;
    put_lost("Claims that go with these pods: ", &lost, &mut text)?;
    let lost = claims_with_set(alloc, why.set(), actions, claims)?;
    put_lost("Claims that go with the set: ", &lost, &mut text)?;
    Ok(text)
}
