// A line as an object, and its members.
ghost use Rattle.std.specs.Prelude.{◌≡◌, option_map};
ghost use Rattle.objects.specs.Tree.{data_of};
ghost use Rattle.scripts.specs.Events.{Reads, count_in, count_of, line_members, text_in, value_of};

use crate::fault::ScriptError;
use objects::{Members, Tree, TreeError, TreeReader};

/// The members of the object in a line: JSON whose numbers are whole. Of members with the same name the last counts.
///
/// # Errors
///
/// `BadScript` if the line is no such object.
pub fn read_members(reader: &mut TreeReader, line: &[u8]) -> Result<Members, ScriptError>
    ensures { Reads (λ members. members) result (line_members line.now) }
{
    let Tree::Map(members) = read_value(reader, line)? else {
        return Err(ScriptError::BadScript);
    };
    Ok(members)
}

fn read_value(reader: &mut TreeReader, line: &[u8]) -> Result<Tree, ScriptError>
    ensures { Reads data_of result (value_of line.now) }
{
    match reader.read(line) {
        Ok(value) => Ok(value),
        Err(TreeError::Memory) => Err(ScriptError::Memory),
        Err(_) => Err(ScriptError::BadScript),
    }
}

/// The text of a member, if it is one.
pub(crate) fn text_in<'a>(members: &'a Members, name: &str) -> Option<&'a str>
    ensures { option_map (λ text. text.now) result ≡ text_in name.now members.now }
{
    members.get(name)?.as_text()
}

/// The whole number of a member, if it is one from 0 up that fits 64 bits.
pub fn count_in(members: &Members, name: &str) -> Option<u64>
    ensures { result ≡ count_in name.now members.now }
{
    count_of(members.get(name)?)
}

/// The whole number of a value, if it is one from 0 up that fits 64 bits.
pub(crate) fn count_of(value: &Tree) -> Option<u64>
    ensures { result ≡ count_of (data_of value.now) }
{
    match value {
        Tree::Integer(number) => number.as_u64(),
        _ => None,
    }
}
