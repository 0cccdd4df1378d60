// Each call on a line of three numbers.
use crate::numbering::blank::{Ends, Line};
use crate::numbering::numbers::number_of;
use std::alloc::Global;
use std::process::Abort;
use std::test::Fail;

/// What the calls on a line of two shards return in turn, 0 for none. The second shard fills the number 2 while 1 is a
/// hole.
fn told(rt: &impl Abort, alloc: Global) -> Result<[u64; 10], Fail> {
    let Ends {
        line,
        mut shards,
        mut caller,
    } = Line::new(alloc, 3, 2)?;
    let mut second = shards.remove(1);
    let mut first = shards.remove(0);
    let one = line.draw(&mut first).expect(rt, "a number");
    let two = line.draw(&mut second).expect(rt, "a number");
    let drawn = (one.number(), two.number());
    line.fill(&mut second, two);
    let at_the_hole = line.raise(&mut caller);
    line.fill(&mut first, one);
    let over_one = line.raise(&mut caller);
    let over_two = line.raise(&mut caller);
    let three = line.draw(&mut first).expect(rt, "a number");
    let last = three.number();
    let none = number_of(&line, &mut second).unwrap_or(0);
    let none_again = number_of(&line, &mut second).unwrap_or(0);
    line.fill(&mut first, three);
    let closed = line.close();
    Ok([
        drawn.0,
        drawn.1,
        at_the_hole,
        over_one,
        over_two,
        last,
        none,
        none_again,
        closed.drawn,
        closed.frontier,
    ])
}

/// Two shards and a hole: the frontier waits for the lowest number, whoever drew it. It cannot be raised over the last
/// one.
#[test]
fn a_frontier_stops_at_a_hole(rt: HostRuntime) -> Result<(), Fail> {
    let told = told(&rt, rt.alloc())?;
    assert!(rt; told == [1, 2, 0, 1, 2, 3, 0, 0, 3, 2]);
    Ok(())
}
