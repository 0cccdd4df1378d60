// Trees as JSON tokens, with no copy.
ghost use Rattle.std.specs.Prelude.{◌≡◌, ◌++◌, IfOk, OnOk};
ghost use Rattle.json.specs.Tree.{json_tokens, items_tokens, members_tokens};
ghost use Rattle.serde_json.specs.Written.{compact_text, outline, items_outline, members_outline};
ghost use Rattle.trees.specs.Tree.{data_of, items_of, members_of};
ghost use Rattle.trees.specs.Canonical.{IsCanonical, AreCanonicalItems, AreCanonicalMembers};

use crate::text::Text;
use crate::tree::Tree;
use json::{Token, Writer};
use std::alloc::{AllocError, Global};

/// Writes a tree where a value is expected: with the writer's other tokens it makes compact JSON, keys in byte order.
/// If memory runs out, a part of its tokens may be written. Its numbers read back as they are, and what was written
/// before stays.
#[cycle(write)]
pub fn write_tree(tree: &Tree, out: &mut Writer) -> Result<(), AllocError>
    ensures tokens { OnOk result (out.new.tokens ≡ out.old.tokens ++ json_tokens (outline (data_of tree.now))) }
    ensures before { out.new.before ≡ out.old.before }
    ensures canonical { OnOk result (IsCanonical (data_of tree.now)) }
{
    match tree {
        Tree::Null => out.token(Token::Null),
        Tree::Truth(truth) => out.token(Token::Bool(*truth)),
        Tree::Integer(number) => number.write(out),
        Tree::Text(text) => out.string(text.as_str()),
        Tree::List(items) => {
            out.begin_array()?;
            write_items(items.as_slice(), out)
        }
        Tree::Map(members) => {
            out.begin_object()?;
            write_entries(members.entries(), out)
        }
    }
}

// With the closing bracket.
#[cycle(write)]
fn write_items(items: &[Tree], out: &mut Writer) -> Result<(), AllocError>
    ensures tokens { OnOk result (out.new.tokens ≡ out.old.tokens ++ items_tokens (items_outline (items_of items.now))) }
    ensures before { out.new.before ≡ out.old.before }
    ensures canonical { OnOk result (AreCanonicalItems (items_of items.now)) }
{
    for item in items {
        write_tree(item, out)?;
    }
    out.end_array()
}

/// Writes the members of a map that has begun, and its closing brace, as `write_tree` does.
#[cycle(write)]
pub fn write_entries(entries: &[(Text, Tree)], out: &mut Writer) -> Result<(), AllocError>
    ensures tokens { OnOk result (out.new.tokens ≡ out.old.tokens ++ members_tokens (members_outline (members_of entries.now))) }
    ensures before { out.new.before ≡ out.old.before }
    ensures canonical { OnOk result (AreCanonicalMembers (members_of entries.now)) }
{
    for (name, value) in entries {
        out.key(name.as_str())?;
        write_tree(value, out)?;
    }
    out.end_object()
}

/// The tree as compact JSON, its keys in byte order: the bytes that `write_tree` makes. It reads back as the tree at
/// any length and depth, unless memory runs out.
pub fn tree_text(alloc: Global, tree: &Tree) -> Result<Vec<u8>, AllocError>
    ensures { IfOk result (λ text. text.items ≡ compact_text (data_of tree.now)) }
{
    let mut writer = Writer::new(Vec::with_capacity(alloc, 256)?);
    write_tree(tree, &mut writer)?;
    Ok(writer.into_inner())
}
