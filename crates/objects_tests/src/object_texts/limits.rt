//! What is too long or too deep for a line: each call has to return, and none may say that memory ran out.
//! `checks/limits` has lines at their limits.
use crate::object_texts::asserts::{assert_so, is_printed, printed, read};
use objects::{Items, Object, ReadError, Tree, TreeReader, claim_name, pod_name};
use std::alloc::{AllocError, Global};

/// Whether the pod and the claim `t` of a set of a million letters have the set's name, followed by the greatest
/// ordinal.
fn are_named(alloc: Global) -> Result<bool, ReadError> {
    let set = "a".repeat(alloc, 1_000_000)?;
    let pod = pod_name(alloc, set.as_str(), u32::MAX)?;
    let claim = claim_name(alloc, "t", set.as_str(), u32::MAX)?;
    let mut expected = set;
    expected.push_str("-4294967295")?;
    let is_pod = pod.as_str() == expected.as_str();
    Ok(is_pod && claim.as_str().strip_prefix("t-") == Some(expected.as_str()))
}

#[test]
fn long_sets_have_names(rt: HostRuntime) {
    assert_so(&rt, are_named(rt.alloc()), "a set of a million letters");
}

/// That many lists, one in the other.
fn nested(alloc: Global, lists: usize) -> Result<Tree, AllocError> {
    let mut tree = Tree::List(Items::of(alloc, Vec::new(alloc))?);
    for _ in 1..lists {
        let mut items = Vec::new(alloc);
        items.push(tree)?;
        tree = Tree::List(Items::of(alloc, items)?);
    }
    Ok(tree)
}

/// A pod of that status.
fn pod_of_status(alloc: Global, status: Tree) -> Result<Object, ReadError> {
    match read(alloc, r#"{"kind":"Pod","metadata":{"name":"a"}}"#) {
        Ok(pod) => Ok(pod.with_status(Some(status))?),
        Err(error) => {
            drop(status);
            Err(error)
        }
    }
}

/// What is printed of a pod whose status is so many lists, one in the other.
fn deep_text(alloc: Global, lists: usize) -> Result<String, AllocError> {
    let front = r#"{"kind":"Pod","metadata":{"name":"a","namespace":"default"},"status":"#;
    let mut text = String::from_str(alloc, front)?;
    text.push_str("[".repeat(alloc, lists)?.as_str())?;
    text.push_str("]".repeat(alloc, lists)?.as_str())?;
    text.push_str("}")?;
    Ok(text)
}

/// Whether a pod whose status is so many lists, one in the other, is printed, and is read back.
fn is_read_back(alloc: Global, lists: usize) -> Result<bool, ReadError> {
    let expected = deep_text(alloc, lists)?;
    let printed = printed(alloc, None, pod_of_status(alloc, nested(alloc, lists)?)?)?;
    let object = printed.object(&mut TreeReader::new(alloc))?;
    let is_again = is_printed(alloc, &object, expected.as_str());
    drop(object);
    let is_text = printed.as_str() == expected.as_str();
    Ok(is_text && is_again?)
}

#[test]
fn deep_objects_are_read_back(rt: HostRuntime) {
    assert_so(&rt, is_read_back(rt.alloc(), 1000), "1,000 lists");
}
