// The first line of a text that cannot be read.
ghost use Rattle.std.specs.Prelude.{◌≡◌, ◌≤◌, IfOk};
ghost use Rattle.plain.specs.Lines.{lines};
ghost use Rattle.plan_lines.specs.RefusedLines.{first_refused};

use objects::Memory;
use plain::split_line;

/// Says which lines can be read.
pub trait LineTest {
    ghost use Rattle.std.specs.Prelude.{◌≡◌, ℕ, List, Bool, IfOk};

    /// Whether a line can be read.
    ghost reads: { List ℕ → Bool };

    /// Whether the line can be read.
    fn can_read(&mut self, line: &[u8]) -> Result<bool, Memory>
        ensures { IfOk result (λ can. can ≡ reads line.now) };
}

/// The number of the first line that cannot be read, if any; the first line of all has the number `from`.
pub fn first_refused<T: LineTest>(
    test: &mut T,
    text: &[u8],
    from: u64,
) -> Result<Option<u64>, Memory>
    requires few { from ≤ 2 }
    ensures { IfOk result (λ line. line ≡ first_refused T.reads from (lines text.now)) }
{
    let mut line = from;
    let mut rest = text;
    'lines: while let Some(cut) = split_line(rest) {
        let (next, after) = cut;
        if !test.can_read(next)? {
            return Ok(Some(line));
        }
        line += 1;
        rest = after;
    }
    Ok(None)
}
