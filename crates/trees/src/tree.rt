ghost use Rattle.std.specs.Prelude.{◌≡◌, IfOk, option_map};
ghost use Rattle.serde_json.specs.Find.{get_member, as_str, as_array, as_object};
ghost use Rattle.trees.specs.Tree.{data_of, items_of, members_of, AreAscending};
ghost use Rattle.trees.specs.Same.{same_data};
ghost use Rattle.trees.specs.Members.{set_member};

use crate::integer::Integer;
use crate::positions::{copied, position_of, put_entry, remove_entry};
use crate::same::same_trees;
use crate::text::Text;
use std::alloc::{AllocError, Global};
use std::marker::Model;
use std::sync::Arc;

/// A JSON value whose numbers are whole. A copy of a list or a map shares what it holds.
#[cycle(tree)]
#[derive(Drop)]
pub enum Tree {
    Null,
    Truth(bool),
    Integer(Integer),
    Text(Text),
    List(Items),
    Map(Members),
}

/// The items of a list, in order.
#[cycle(tree)]
#[derive(Drop)]
pub struct Items {
    items: Arc<Vec<Tree>>,
}

/// The members of a map, in byte order of their keys. Each key is there once.
#[cycle(tree)]
#[derive(Drop)]
pub struct Members {
    entries: Arc<Vec<(Text, Tree)>>,
}

impl Model for Items {
    ghost use Rattle.serde_json.specs.Data.{Items as DataItems, items_depth};
    ghost use Rattle.trees.specs.Codes.{items_coded};

    ghost Value = { DataItems };

    ghost coded = { items_coded };

    ghost use Rattle.trees.specs.Tree.{items_of};

    ghost view = { λ a. items_of a.items.value.items };

    ghost size = { items_depth };

    ghost use Rattle.trees.specs.TreeFalls.{items_fall};

    ghost size_decreases = { λ a h. items_fall a.items.value.items };
}

impl Model for Members {
    ghost use Rattle.serde_json.specs.Data.{Members as DataMembers, members_depth};
    ghost use Rattle.trees.specs.Codes.{members_coded};

    ghost Value = { DataMembers };

    ghost coded = { members_coded };

    ghost use Rattle.trees.specs.Tree.{members_of, AreAscending};

    ghost view = { λ a. members_of a.entries.value.items };

    ghost invariant = { λ a. AreAscending (members_of a.entries.value.items) };

    ghost size = { members_depth };

    ghost use Rattle.trees.specs.TreeFalls.{members_fall};

    ghost size_decreases = { λ a h. members_fall a };
}

impl Clone for Tree {
    ghost is_clone = { λ old new. new ≡ old };

    fn clone(&self) -> Result<Tree, AllocError> {
        match self {
            Tree::Null => Ok(Tree::Null),
            Tree::Truth(truth) => Ok(Tree::Truth(*truth)),
            Tree::Integer(number) => Ok(Tree::Integer(number.clone()?)),
            Tree::Text(text) => Ok(Tree::Text(text.clone()?)),
            Tree::List(items) => Ok(Tree::List(items.clone()?)),
            Tree::Map(members) => Ok(Tree::Map(members.clone()?)),
        }
    }
}

impl Clone for Items {
    ghost is_clone = { λ old new. new ≡ old };

    fn clone(&self) -> Result<Items, AllocError> {
        Ok(Items {
            items: Arc::try_clone(&self.items)?,
        })
    }
}

impl Clone for Members {
    ghost is_clone = { λ old new. new ≡ old };

    fn clone(&self) -> Result<Members, AllocError> {
        Ok(Members {
            entries: Arc::try_clone(&self.entries)?,
        })
    }
}

impl Items {
    /// A list of these items.
    pub fn of(alloc: Global, items: Vec<Tree>) -> Result<Items, AllocError>
        ensures { IfOk result (λ list. list ≡ items_of items.items) }
    {
        Ok(Items {
            items: Arc::new(alloc, items)?,
        })
    }

    /// The items, in order.
    pub fn as_slice(&self) -> &[Tree]
        ensures { items_of result.now ≡ self.now }
    {
        self.items.as_slice()
    }
}

impl Members {
    /// A map of these members, whose keys ascend in byte order.
    pub fn of(alloc: Global, entries: Vec<(Text, Tree)>) -> Result<Members, AllocError>
        requires { AreAscending (members_of entries.items) }
        ensures { IfOk result (λ map. map ≡ members_of entries.items) }
    {
        Ok(Members {
            entries: Arc::new(alloc, entries)?,
        })
    }

    /// The members, in byte order of their keys.
    pub fn entries(&self) -> &[(Text, Tree)]
        ensures all { members_of result.now ≡ self.now }
        ensures ascending { AreAscending self.now }
    {
        self.entries.as_slice()
    }
}

impl Tree {
    /// The items, if this is a list.
    pub fn as_list(&self) -> Option<&Items>
        ensures { option_map (λ i. i.now) result ≡ as_array (data_of self.now) }
    {
        match self {
            Tree::List(items) => Some(items),
            _ => None,
        }
    }

    /// The members, if this is a map.
    pub fn as_map(&self) -> Option<&Members>
        ensures { option_map (λ m. m.now) result ≡ as_object (data_of self.now) }
    {
        match self {
            Tree::Map(members) => Some(members),
            _ => None,
        }
    }

    /// The text, if this is one.
    pub fn as_text(&self) -> Option<&str>
        ensures { option_map (λ s. s.now) result ≡ as_str (data_of self.now) }
    {
        match self {
            Tree::Text(text) => Some(text.as_str()),
            _ => None,
        }
    }
}

impl Tree {
    /// Whether both are the same JSON value: numbers are compared by value, and the order in which a map's members came
    /// does not matter. It allocates nothing, and takes as many steps as the smaller of the two has parts.
    pub fn is_same(&self, other: &Tree) -> bool
        ensures { result ≡ same_data (data_of self.now) (data_of other.now) }
    {
        same_trees(self, other)
    }
}

impl Members {
    /// The value of a member.
    pub fn get(&self, key: &str) -> Option<&Tree>
        ensures { option_map (λ t. data_of t.now) result ≡ get_member key.now self.now }
    {
        find(&self.entries, key)
    }

    /// The value of a member, removed from the map. The others stay.
    pub fn take(self, key: &str) -> Result<Option<Tree>, AllocError>
        ensures { IfOk result (λ t. option_map data_of t ≡ get_member key.now self) }
    {
        let mut entries = self.into_entries()?;
        match position_of(&entries, key) {
            Ok(at) => {
                let (_, value) = entries.swap_remove(at);
                Ok(Some(value))
            }
            Err(_) => Ok(None),
        }
    }

    /// The members with that value at the key, or without the key if there is no value. They are copied only if another
    /// map shares them, and what their values hold is never copied.
    pub fn with(self, key: &str, value: Option<Tree>) -> Result<Members, AllocError>
        ensures { IfOk result (λ ms. ms ≡ set_member key.now (option_map data_of value) self) }
    {
        let alloc = *self.entries.allocator();
        let mut entries = self.into_entries()?;
        match value {
            Some(value) => put_entry(&mut entries, Text::copy_of(alloc, key)?, value)?,
            None => remove_entry(&mut entries, key),
        }
        Members::of(alloc, entries)
    }

    /// The members by themselves. They are copied only if another map shares them.
    pub fn into_entries(self) -> Result<Vec<(Text, Tree)>, AllocError>
        ensures all { IfOk result (λ entries. members_of entries.items ≡ self) }
        ensures ascending { IfOk result (λ entries. AreAscending (members_of entries.items)) }
    {
        match Arc::try_unwrap(self.entries) {
            Ok(entries) => Ok(entries),
            Err(shared) => copied(*shared.allocator(), &shared),
        }
    }
}

fn find<'a>(entries: &'a [(Text, Tree)], key: &str) -> Option<&'a Tree>
    ensures { option_map (λ t. data_of t.now) result ≡ get_member key.now (members_of entries.now) }
{
    for (name, value) in entries {
        if key == name.as_str() {
            return Some(value);
        }
    }
    None
}
