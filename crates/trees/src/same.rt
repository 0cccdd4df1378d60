// Whether two trees are the same JSON value.
ghost use Rattle.std.specs.Prelude.{◌≡◌, ◌&&◌, bytes_eq, true, false};
ghost use Rattle.serde_json.specs.Data.{Data};
ghost use Rattle.serde_json.specs.Written.{has_float};
ghost use Rattle.trees.specs.Tree.{data_of, items_of, members_of};
ghost use Rattle.trees.specs.Same.{same_data, same_items, same_members};

use crate::text::Text;
use crate::tree::Tree;

#[cycle(same)]
pub(crate) fn same_trees(left: &Tree, right: &Tree) -> bool
    ensures { result ≡ same_data (data_of left.now) (data_of right.now) }
{
    match left {
        Tree::Null => match right {
            Tree::Null => true,
            _ => false,
        },
        Tree::Truth(truth) => match right {
            Tree::Truth(other) => *truth == *other,
            _ => false,
        },
        Tree::Integer(number) => match right {
            Tree::Integer(other) => number.is_same(other),
            _ => false,
        },
        Tree::Text(text) => match right {
            Tree::Text(other) => text.as_str() == other.as_str(),
            _ => false,
        },
        Tree::List(items) => match right {
            Tree::List(others) => same_items(items.as_slice(), others.as_slice()),
            _ => false,
        },
        Tree::Map(members) => match right {
            Tree::Map(others) => same_entries(members.entries(), others.entries()),
            _ => false,
        },
    }
}

#[cycle(same)]
fn same_items(left: &[Tree], right: &[Tree]) -> bool
    ensures { result ≡ same_items (items_of left.now) (items_of right.now) }
{
    if left.len() != right.len() {
        return false;
    }
    for i in 0..left.len() {
        if !same_trees(&left[i], &right[i]) {
            return false;
        }
    }
    true
}

#[cycle(same)]
fn same_entries(left: &[(Text, Tree)], right: &[(Text, Tree)]) -> bool
    ensures { result ≡ same_members (members_of left.now) (members_of right.now) }
{
    if left.len() != right.len() {
        return false;
    }
    for i in 0..left.len() {
        if !same_entry(&left[i], &right[i]) {
            return false;
        }
    }
    true
}

#[cycle(same)]
fn same_entry(left: &(Text, Tree), right: &(Text, Tree)) -> bool
    ensures { result ≡ (bytes_eq left.now.0 right.now.0 && same_data (data_of left.now.1) (data_of right.now.1)) }
{
    left.0.as_str() == right.0.as_str() && same_trees(&left.1, &right.1)
}

/// A JSON value of whole numbers is the same as itself.
pub fn same_is_reflexive()
    ensures { (value : Data) → has_float value ≡ false → same_data value value ≡ true }
{}

/// JSON values that are the same are one value.
pub fn same_values_are_equal()
    ensures { (left right : Data) → same_data left right ≡ true → left ≡ right }
{}
