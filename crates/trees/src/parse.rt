// From a JSON text to a tree, in one pass over the tokens. A value with a number that is not whole is read as `None`,
// and reading continues: only the end of the text shows that it is JSON, and a later value of the same key may replace
// this one.
ghost use Rattle.std.specs.Prelude.{◌≡◌, ◌<◌, ◌≤◌, ◌∷◌, ℕ, option_map, length, OnOk, IfOk, IfSome};
ghost use Rattle.json.specs.Token.{begin_array, begin_object};
ghost use Rattle.json.specs.Json.{value, items, members, parse_map};
ghost use Rattle.serde_json.specs.Data.{Members as DataMembers, no_members};
ghost use Rattle.serde_json.specs.Read.{of_json, of_items, of_members, converted};
ghost use Rattle.trees.specs.Tree.{data_of, items_of, members_of, AreAscending};
ghost use Rattle.trees.specs.Steps.{Gives, required};
ghost use Rattle.trees.specs.Integral.{if_integral, items_if_integral, members_if_integral, found_in, found_of};
ghost use Rattle.trees.specs.Reading.{read_within};
ghost use Rattle.trees.specs.declared.fault.TreeError.TheVariants.{NotJson};

use crate::fault::TreeError;
use crate::found::{by_key, integral_entries};
use crate::number::number_in;
use crate::positions::{goes_last, put_entry};
use crate::spares::Spares;
use crate::text::Text;
use crate::tree::{Items, Members, Tree};
use json::{Reader, Scratch, Token};
use std::alloc::Global;
use std::collections::BTreeMap;

/// In a map of fewer members a key is inserted in order, which moves those after it.
const FEW: usize = 16;

/// The tree of a text whose lists and maps nest at most `depth` deep, or `None` if a number in it is not whole. The
/// only refusal is NotJson.
pub(crate) fn tree_in(
    alloc: Global,
    text: &str,
    depth: usize,
    scratch: &mut Scratch,
    spares: &mut Spares,
) -> Result<Option<Tree>, TreeError>
    ensures { Gives (option_map data_of) result (required NotJson (option_map if_integral (read_within depth text.now))) }
{
    let mut reader = Reader::new(text, scratch)?;
    let tree = value_in(alloc, &mut reader, depth, spares)?;
    if reader.next().is_some() {
        return Err(TreeError::NotJson);
    }
    Ok(tree)
}

#[cycle(parse)]
fn value_in(
    alloc: Global,
    reader: &mut Reader<'_>,
    depth: usize,
    spares: &mut Spares,
) -> Result<Option<Tree>, TreeError>
    ensures value { Gives (λ t. (option_map data_of t, reader.new)) result
        (required NotJson (parse_map if_integral (converted of_json (value depth reader.old)))) }
    ensures shorter { OnOk result (length reader.new < length reader.old) }
{
    match reader.next().ok_or(TreeError::NotJson)? {
        Token::Null => Ok(Some(Tree::Null)),
        Token::Bool(truth) => Ok(Some(Tree::Truth(truth))),
        Token::Number(text) => Ok(number_in(text)?.map(Tree::Integer)),
        Token::String(text) => Ok(Some(Tree::Text(Text::copy_of(alloc, text)?))),
        Token::BeginArray => list_in(alloc, reader, depth, spares),
        Token::BeginObject => map_in(alloc, reader, depth, spares),
        Token::EndObject | Token::EndArray | Token::Key(_) | Token::Bad => Err(TreeError::NotJson),
    }
}

#[cycle(parse)]
fn list_in(
    alloc: Global,
    reader: &mut Reader<'_>,
    depth: usize,
    spares: &mut Spares,
) -> Result<Option<Tree>, TreeError>
    ensures value { Gives (λ t. (option_map data_of t, reader.new)) result
        (required NotJson (parse_map if_integral (converted of_json (value depth (begin_array ∷ reader.old))))) }
    ensures shorter { OnOk result (length reader.new < length reader.old) }
{
    if depth == 0 {
        return Err(TreeError::NotJson);
    }
    match items_in(alloc, reader, depth - 1, spares)? {
        Some(items) => Ok(Some(Tree::List(Items::of(alloc, items)?))),
        None => Ok(None),
    }
}

#[cycle(parse)]
fn map_in(
    alloc: Global,
    reader: &mut Reader<'_>,
    depth: usize,
    spares: &mut Spares,
) -> Result<Option<Tree>, TreeError>
    ensures value { Gives (λ t. (option_map data_of t, reader.new)) result
        (required NotJson (parse_map if_integral (converted of_json (value depth (begin_object ∷ reader.old))))) }
    ensures shorter { OnOk result (length reader.new < length reader.old) }
{
    if depth == 0 {
        return Err(TreeError::NotJson);
    }
    match members_in(alloc, reader, depth - 1, spares)? {
        Some(entries) => Ok(Some(Tree::Map(Members::of(alloc, entries)?))),
        None => Ok(None),
    }
}

/// The items up to the end of the list.
#[cycle(parse)]
fn items_in(
    alloc: Global,
    reader: &mut Reader<'_>,
    depth: usize,
    spares: &mut Spares,
) -> Result<Option<Vec<Tree>>, TreeError>
    ensures items { Gives (λ v. (option_map (λ ts. items_of ts.items) v, reader.new)) result
        (required NotJson (parse_map items_if_integral
        (converted of_items (items (value depth) (length reader.old) reader.old)))) }
    ensures shorter { OnOk result (length reader.new < length reader.old) }
{
    let mut items = spares.items.take(alloc);
    let mut are_integral = true;
    'items: while !reader.take_end_array() {
        match value_in(alloc, reader, depth, spares)? {
            Some(item) => items.push(item)?,
            None => are_integral = false,
        }
    }
    Ok(if are_integral {
        Some(spares.items.tight(alloc, items)?)
    } else {
        None
    })
}

/// The members up to the end of the map, as long as each is put in order in few steps.
#[cycle(parse)]
fn members_in(
    alloc: Global,
    reader: &mut Reader<'_>,
    depth: usize,
    spares: &mut Spares,
) -> Result<Option<Vec<(Text, Tree)>>, TreeError>
    ensures members { Gives (λ v. (option_map (λ es. members_of es.items) v, reader.new)) result
        (required NotJson (parse_map members_if_integral
        (converted (λ ms. of_members ms no_members) (members (value depth) (length reader.old) reader.old)))) }
    ensures ascending { IfOk result (λ v. IfSome v (λ es. AreAscending (members_of es.items))) }
    ensures shorter { OnOk result (length reader.new < length reader.old) }
{
    let mut entries = spares.entries.take(alloc);
    'members: while let Some(name) = reader.next_key()? {
        let key = Text::copy_of(alloc, name)?;
        match value_in(alloc, reader, depth, spares)? {
            Some(value) if goes_last(&entries, name) => entries.push((key, value))?,
            Some(value) if entries.len() < FEW => put_entry(&mut entries, key, value)?,
            // Too many to move for each, or not integral: then a later value of the key may still replace it.
            value => {
                let mut found = by_key(alloc, entries)?;
                // An earlier value of the key is dropped, since the last one counts.
                drop(found.insert(key, value)?);
                return members_after(alloc, reader, depth, spares, found);
            }
        }
    }
    Ok(Some(spares.entries.tight(alloc, entries)?))
}

/// The members up to the end of the map, with those that were found before.
#[cycle(parse)]
fn members_after(
    alloc: Global,
    reader: &mut Reader<'_>,
    depth: usize,
    spares: &mut Spares,
    mut found: BTreeMap<Text, Option<Tree>>,
) -> Result<Option<Vec<(Text, Tree)>>, TreeError>
    ensures members { (before : DataMembers) → found_in before ≡ found_of found.entries
        → (most : ℕ) → length reader.old ≤ most
        → Gives (λ v. (option_map (λ es. members_of es.items) v, reader.new)) result
        (required NotJson (parse_map members_if_integral
        (converted (λ ms. of_members ms before) (members (value depth) most reader.old)))) }
    ensures ascending { IfOk result (λ v. IfSome v (λ es. AreAscending (members_of es.items))) }
    ensures shorter { OnOk result (length reader.new < length reader.old) }
{
    'members: while let Some(name) = reader.next_key()? {
        let key = Text::copy_of(alloc, name)?;
        let value = value_in(alloc, reader, depth, spares)?;
        // An earlier value of the key is dropped, since the last one counts.
        drop(found.insert(key, value)?);
    }
    Ok(integral_entries(alloc, found)?)
}
