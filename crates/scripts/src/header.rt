ghost use Rattle.scripts.specs.Events.{Reads};
ghost use Rattle.scripts.specs.Scripts.{size_in, size_of};

use crate::fault::ScriptError;
use crate::line::count_in;
use objects::Members;

/// The size of a store, as the first line of a script gives it. Neither number is bounded here.
#[derive(Clone, Copy, Drop)]
pub(crate) struct Header {
    /// How many revisions the store may allocate.
    pub capacity: u64,
    pub shards: u64,
}

/// The size that the members `capacity` and `shards` give, whole numbers below 2^64.
///
/// # Errors
///
/// `BadScript` if one of them is missing or no such number.
pub(crate) fn header_in(members: &Members) -> Result<Header, ScriptError>
    ensures { Reads size_of result (size_in members.now) }
{
    let Some(capacity) = count_in(members, "capacity") else {
        return Err(ScriptError::BadScript);
    };
    let Some(shards) = count_in(members, "shards") else {
        return Err(ScriptError::BadScript);
    };
    Ok(Header { capacity, shards })
}
