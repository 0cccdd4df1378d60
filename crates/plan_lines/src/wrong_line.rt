// The first line of an input that is no object.
ghost use Rattle.std.specs.Prelude.{◌≡◌, is_ok, is_some, true, IfErr, IfOk};
ghost use Rattle.objects.specs.Reading.{reading};
ghost use Rattle.plain.specs.Lines.{lines};
ghost use Rattle.plan_lines.specs.Objects.{nothing, read_from};
ghost use Rattle.plan_lines.specs.RefusedLines.{refused_line_of};

use crate::line_test::{LineTest, first_refused};
use crate::listed::read_line;
use objects::{Memory, ReadError, TreeReader};
use std::alloc::Global;

/// Lines of an input.
#[derive(Drop)]
struct Objects {
    alloc: Global,
    reader: TreeReader,
}

impl LineTest for Objects {
    ghost use Rattle.std.specs.Prelude.{is_ok};
    ghost use Rattle.objects.specs.Reading.{reading};

    ghost reads = { λ line. is_ok (reading line) };

    fn can_read(&mut self, line: &[u8]) -> Result<bool, Memory> {
        match read_line(self.alloc, &mut self.reader, line) {
            Ok(draft) => {
                drop(draft);
                Ok(true)
            }
            Err(ReadError::Memory) => Err(Memory),
            Err(
                ReadError::NotJson
                | ReadError::NotWhole
                | ReadError::NoKind
                | ReadError::UnknownKind
                | ReadError::BadName
                | ReadError::BadMeta
                | ReadError::TooLong,
            ) => Ok(false),
        }
    }
}

/// The number of the first line, from 1, that is no object; none if each is one.
pub fn refused_object_line(alloc: Global, text: &[u8]) -> Result<Option<u64>, Memory>
    ensures line { IfOk result (λ line. line ≡ refused_line_of text.now) }
    ensures some { IfOk result (λ line. IfErr (read_from nothing (lines text.now)) (λ _. is_some line ≡ true)) }
{
    refused_in(alloc, text)
}

fn refused_in(alloc: Global, text: &[u8]) -> Result<Option<u64>, Memory>
    ensures { IfOk result (λ line. line ≡ refused_line_of text.now) }
{
    let reader = TreeReader::new(alloc);
    first_refused(&mut Objects { alloc, reader }, text, 1)
}
