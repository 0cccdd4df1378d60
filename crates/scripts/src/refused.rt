// The first line for which a text is refused.
ghost use Rattle.std.specs.Prelude.{◌≡◌, is_some, true, None, IfOk};
ghost use Rattle.plain.specs.Lines.{lines};
ghost use Rattle.scripts.specs.Refusals.{refused_cluster_line_of, refused_line, refused_line_of};
ghost use Rattle.scripts.specs.Scripts.{line_by, script_by, script_of};
ghost use Rattle.scripts.specs.ClusterScripts.{cluster_script_of};

use crate::cluster_script::ClusterScript;
use crate::fault::ScriptError;
use crate::from_lines::{FromLines, read_event, read_header};
use crate::script::Script;
use objects::{Memory, TreeReader};
use plain::split_line;
use plan_lines::{LineTest, first_refused};
use std::alloc::Global;
use std::marker::PhantomData;

/// The lines of a script but its first.
#[derive(Drop)]
struct Events<S> {
    alloc: Global,
    reader: TreeReader,
    of: PhantomData<S>,
}

impl<S: FromLines> LineTest for Events<S> {
    ghost use Rattle.std.specs.Prelude.{is_some};
    ghost use Rattle.scripts.specs.Scripts.{line_by};

    ghost reads = { λ line. is_some (line_by S.event line) };

    fn can_read(&mut self, line: &[u8]) -> Result<bool, Memory> {
        match read_event::<S>(self.alloc, &mut self.reader, line) {
            Ok(event) => {
                drop(event);
                Ok(true)
            }
            Err(ScriptError::BadScript) => Ok(false),
            Err(ScriptError::Memory) => Err(Memory),
        }
    }
}

/// The number of the first line, from 1, for which a text is no script; none if it is one.
#[tactic(auto, unfolding(crate::specs::Events::event_of, crate::specs::Scripts::script_of))]
pub fn refused_line(alloc: Global, text: &[u8]) -> Result<Option<u64>, Memory>
    ensures line { IfOk result (λ line. line ≡ refused_line_of text.now) }
    ensures some { IfOk result (λ line. script_of text.now ≡ None → is_some line ≡ true) }
{
    refused_line_by::<Script>(alloc, text)
}

/// The same for a script of a cluster.
#[tactic(auto, unfolding(crate::specs::Turns::turn_of, crate::specs::ClusterScripts::cluster_script_of))]
pub fn refused_cluster_line(alloc: Global, text: &[u8]) -> Result<Option<u64>, Memory>
    ensures line { IfOk result (λ line. line ≡ refused_cluster_line_of text.now) }
    ensures some { IfOk result (λ line. cluster_script_of text.now ≡ None → is_some line ≡ true) }
{
    refused_line_by::<ClusterScript>(alloc, text)
}

/// The same for a script of any kind.
pub(crate) fn refused_line_by<S: FromLines>(
    alloc: Global,
    text: &[u8],
) -> Result<Option<u64>, Memory>
    ensures line { IfOk result (λ line. line ≡ refused_line (λ l. is_some (line_by S.header l)) (λ l. is_some (line_by S.event l)) (lines text.now)) }
    ensures some { IfOk result (λ line. script_by (line_by S.header) (line_by S.event) (lines text.now) ≡ None → is_some line ≡ true) }
{
    refused_in::<S>(alloc, text)
}

fn refused_in<S: FromLines>(alloc: Global, text: &[u8]) -> Result<Option<u64>, Memory>
    ensures { IfOk result (λ line. line ≡ refused_line (λ l. is_some (line_by S.header l)) (λ l. is_some (line_by S.event l)) (lines text.now)) }
{
    let Some(cut) = split_line(text) else {
        return Ok(Some(1));
    };
    let (first, rest) = cut;
    let mut reader = TreeReader::new(alloc);
    match read_header::<S>(alloc, &mut reader, first) {
        Ok(header) => drop(header),
        Err(ScriptError::BadScript) => return Ok(Some(1)),
        Err(ScriptError::Memory) => return Err(Memory),
    }
    let mut events = Events::<S> {
        alloc,
        reader,
        of: PhantomData,
    };
    first_refused(&mut events, rest, 2)
}
