// Maps that are built member by member.
ghost use Rattle.std.specs.Prelude.{◌≡◌, IfOk, option_map};
ghost use Rattle.serde_json.specs.Data.{no_members, put, string};
ghost use Rattle.trees.specs.Tree.{data_of};
ghost use Rattle.trees.specs.Building.{put_number, put_some};

use crate::integer::Integer;
use crate::text::Text;
use crate::tree::{Members, Tree};
use std::alloc::{AllocError, Global};

impl Members {
    /// No members.
    pub fn none(alloc: Global) -> Result<Members, AllocError>
        ensures { IfOk result (λ members. members ≡ no_members) }
    {
        Members::of(alloc, Vec::new(alloc))
    }

    /// The members with that value at the key; unchanged if there is no value.
    pub fn with_some(self, key: &str, value: Option<Tree>) -> Result<Members, AllocError>
        ensures { IfOk result (λ members. members ≡ put_some key.now (option_map data_of value) self) }
    {
        match value {
            Some(value) => self.with(key, Some(value)),
            None => Ok(self),
        }
    }

    /// The members with that text at the key.
    pub fn with_text(self, alloc: Global, key: &str, text: &str) -> Result<Members, AllocError>
        ensures { IfOk result (λ members. members ≡ put key.now (string text.now) self) }
    {
        let text = Text::copy_of(alloc, text)?;
        self.with(key, Some(Tree::Text(text)))
    }

    /// The members with that number at the key.
    pub fn with_number(self, key: &str, number: u64) -> Result<Members, AllocError>
        ensures { IfOk result (λ members. members ≡ put_number key.now number self) }
    {
        self.with(key, Some(Tree::Integer(Integer::from(number))))
    }
}
