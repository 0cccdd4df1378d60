ghost use Rattle.std.specs.Prelude.{◌≡◌, false, length, option_map, Some, IfOk};
ghost use Rattle.std.specs.Option.{IsSomeAnd};
ghost use Rattle.serde_json.specs.Written.{has_float};
ghost use Rattle.trees.specs.Steps.{Gives, required};
ghost use Rattle.trees.specs.Tree.{data_of};
ghost use Rattle.trees.specs.Integral.{if_integral};
ghost use Rattle.trees.specs.Reading.{tree_reading, json_value, read_within};
ghost use Rattle.trees.specs.declared.fault.TreeError.TheVariants.{NotJson};

use crate::fault::TreeError;
use crate::parse::tree_in;
use crate::spares::Spares;
use crate::tree::Tree;
use json::Scratch;
use memory::Memory;
use simdutf8::basic::from_utf8;
use std::alloc::Global;

/// The most bytes that a text may have.
pub const MAX_BYTES: usize = 1_048_576;

/// How deep lists and maps of a text may nest.
const MAX_DEPTH: usize = 127;

/// Reads texts one after another, in memory that it keeps from text to text: a few pages, the longest text's length, and
/// for each depth that a text had, room for 64 items and 64 members at most.
#[derive(Drop)]
pub struct TreeReader {
    alloc: Global,
    scratch: Scratch,
    spares: Spares,
}

impl TreeReader {
    /// A reader that has read nothing.
    pub fn new(alloc: Global) -> TreeReader {
        TreeReader {
            alloc,
            scratch: Scratch::new(alloc),
            spares: Spares::new(alloc),
        }
    }

    /// The value that the bytes are, whatever was read before.
    ///
    /// # Errors
    ///
    /// The first that applies: TooLong, NotJson, NotWhole.
    #[tactic(auto, using(crate::proofs::Chains::fails_then), unfolding(crate::specs::Reading::tree_reading))]
    pub fn read(&mut self, bytes: &[u8]) -> Result<Tree, TreeError>
        ensures { Gives data_of result (tree_reading bytes.now) }
    {
        if bytes.len() > MAX_BYTES {
            return Err(TreeError::TooLong);
        }
        self.read_text(bytes)?.ok_or(TreeError::NotWhole)
    }

    fn read_text(&mut self, bytes: &[u8]) -> Result<Option<Tree>, TreeError>
        ensures { Gives (option_map data_of) result
            (required NotJson (option_map if_integral (json_value bytes.now))) }
    {
        match from_utf8(bytes) {
            Ok(text) => tree_in(
                self.alloc,
                text,
                MAX_DEPTH,
                &mut self.scratch,
                &mut self.spares,
            ),
            Err(_) => Err(TreeError::NotJson),
        }
    }

    /// The value of a text that is known to have one, at any length and depth: as a text that was written from a tree.
    pub fn read_back(&mut self, text: &str) -> Result<Tree, Memory>
        requires { IsSomeAnd (read_within (length text.now) text.now) (λ value. has_float value ≡ false) }
        ensures { IfOk result (λ tree. read_within (length text.now) text.now ≡ Some (data_of tree)) }
    {
        match tree_in(
            self.alloc,
            text,
            text.len(),
            &mut self.scratch,
            &mut self.spares,
        ) {
            Ok(Some(tree)) => Ok(tree),
            Err(TreeError::Memory) => Err(Memory),
            // The caller knows that the text is JSON with whole numbers, so only memory can run out.
            _ => unreachable!(),
        }
    }
}

/// The value that the bytes are.
///
/// # Errors
///
/// The first that applies: TooLong, NotJson, NotWhole.
pub fn read_tree(alloc: Global, bytes: &[u8]) -> Result<Tree, TreeError>
    ensures { Gives data_of result (tree_reading bytes.now) }
{
    TreeReader::new(alloc).read(bytes)
}
