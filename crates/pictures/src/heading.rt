//! The participants of a run.
ghost use Rattle.std.specs.Prelude.{◌≡◌, ◌++◌, string_bytes, OnOk};
ghost use Rattle.std.specs.List.{flat_map};
ghost use Rattle.pictures.specs.Heading.{caller_line, heading, shard_lines};

use crate::roles::Roles;
use std::alloc::AllocError;
use std::collections::BTreeSet;

/// Appends the lines of the participants.
pub(crate) fn put_heading<R: Roles>(
    shards: usize,
    callers: &BTreeSet<u64>,
    roles: &R,
    out: &mut String,
) -> Result<(), AllocError>
    ensures { OnOk result (string_bytes out.new ≡ string_bytes out.old ++ heading shards (R.role roles.now) callers.now.keys) }
{
    write!(out, "sequenceDiagram\n")?;
    put_callers(callers, roles, out)?;
    put_shards(shards, out)?;
    write!(out, "    participant F as frontier\n")
}

fn put_callers<R: Roles>(
    callers: &BTreeSet<u64>,
    roles: &R,
    out: &mut String,
) -> Result<(), AllocError>
    ensures { OnOk result (string_bytes out.new ≡ string_bytes out.old ++ flat_map (caller_line (R.role roles.now)) callers.now.keys) }
{
    for caller in callers {
        put_caller(*caller, roles, out)?;
    }
    Ok(())
}

fn put_caller<R: Roles>(caller: u64, roles: &R, out: &mut String) -> Result<(), AllocError>
    ensures { OnOk result (string_bytes out.new ≡ string_bytes out.old ++ caller_line (R.role roles.now) caller) }
{
    write!(out, "    participant C{caller} as ")?;
    roles.put_role(caller, out)?;
    write!(out, "caller {caller}\n")
}

fn put_shards(shards: usize, out: &mut String) -> Result<(), AllocError>
    ensures { OnOk result (string_bytes out.new ≡ string_bytes out.old ++ shard_lines shards) }
{
    for shard in 0..shards {
        write!(out, "    participant S{shard} as shard {shard}\n")?;
    }
    Ok(())
}
