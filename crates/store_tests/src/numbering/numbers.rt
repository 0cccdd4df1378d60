// Numbers that a seat draws and fills at once, and a frontier that is raised over them.
ghost use Rattle.std.specs.Prelude.{◌≡◌, None};

use crate::numbering::blank::{CallerSeat, Line, ShardSeat};
use std::alloc::Global;
use std::test::Fail;

/// Draws a number and fills it.
pub(crate) fn number_of(line: &Line, seat: &mut ShardSeat) -> Option<u64>
    requires line { seat.old.line ≡ line.now.name }
    requires pending { (seat.old.view.plain.pending ≡ None) × (seat.old.view.caller ≡ None) }
    ensures { (seat.new.line ≡ seat.old.line) × (seat.new.view.plain.pending ≡ None) × (seat.new.view.caller ≡ None) }
{
    let drawn = line.draw(seat)?;
    let number = drawn.number();
    line.fill(seat, drawn);
    Some(number)
}

/// Draws and fills until all numbers are drawn, but at most so many times.
pub(crate) fn numbers_of(
    alloc: Global,
    line: &Line,
    mut seat: ShardSeat,
    most: usize,
) -> Option<Vec<u64>>
    requires line { seat.line ≡ line.now.name }
    requires pending { (seat.view.plain.pending ≡ None) × (seat.view.caller ≡ None) }
{
    let mut numbers = Vec::new(alloc);
    for _ in 0..most {
        let Some(number) = number_of(line, &mut seat) else {
            break;
        };
        numbers.push(number).ok()?;
    }
    Some(numbers)
}

/// The frontier after so many raises.
pub(crate) fn raised(line: &Line, caller: &mut CallerSeat, raises: u64) -> u64
    requires { caller.old.line ≡ line.now.name }
{
    for _ in 0..raises {
        line.raise(caller);
    }
    caller.seen()
}

/// The numbers of all lists, in ascending order.
pub(crate) fn sorted(alloc: Global, lists: Vec<Option<Vec<u64>>>) -> Result<Vec<u64>, Fail> {
    let mut numbers = Vec::new(alloc);
    for list in lists {
        for number in list.ok_or("no memory")? {
            numbers.push(number)?;
        }
    }
    numbers.sort()?;
    Ok(numbers)
}
