ghost use Rattle.std.specs.Prelude.{◌≡◌, ◌<◌, [], length, Some, IfOk, IfSome, OnOk};
ghost use Rattle.plain.specs.Faults.{CountsInput};
ghost use Rattle.plain.specs.declared.devices.input.InputFault.TheVariants.{Memory as OutOfMemory};

use crate::devices::stream::Source;
use std::alloc::{AllocError, Global};
use thiserror::Error;

/// The room for one read, in bytes.
const READ_ROOM: usize = 65_536;

/// Why an input was not read to its end.
#[derive(Clone, Copy, Debug, PartialEq, Eq, Error)]
pub enum InputFault {
    /// The reader failed.
    #[error("the input could not be read")]
    Read,
    /// An allocation was refused.
    #[error("out of memory")]
    Memory,
}

impl From<AllocError> for InputFault {
    ghost from_gives = { λ _ fault. fault ≡ OutOfMemory };

    fn from(_error: AllocError) -> InputFault {
        InputFault::Memory
    }
}

/// All bytes of the reader.
pub fn read_all<R: Source>(alloc: Global, reader: &mut R) -> Result<Vec<u8>, InputFault>
    ensures all { IfOk result (λ bytes. IfSome (R.remaining reader.old) (λ input. bytes.items ≡ input)) }
    ensures left { OnOk result (IfSome (R.remaining reader.old) (λ _. R.remaining reader.new ≡ Some [])) }
    ensures reads { CountsInput result (R.failures reader.old) (R.failures reader.new) }
{
    let mut room = vec![in alloc; 0u8; READ_ROOM]?;
    read_by(alloc, reader, room.as_mut_slice())
}

/// All bytes of the reader, with this room for one read.
fn read_by<R: Source>(alloc: Global, reader: &mut R, room: &mut [u8]) -> Result<Vec<u8>, InputFault>
    requires { 0 < length room.old }
    ensures all { IfOk result (λ bytes. IfSome (R.remaining reader.old) (λ input. bytes.items ≡ input)) }
    ensures left { OnOk result (IfSome (R.remaining reader.old) (λ _. R.remaining reader.new ≡ Some [])) }
    ensures reads { CountsInput result (R.failures reader.old) (R.failures reader.new) }
{
    let mut bytes = Vec::new(alloc);
    'reads: loop {
        let Some(count) = reader.read(room) else {
            return Err(InputFault::Read);
        };
        // 0 is the end of the input.
        if count == 0 {
            break;
        }
        bytes.extend_from_slice(&room[..count])?;
    }
    Ok(bytes)
}
