//! Orders of histories, legal ones and others, and traces that are no history, by hand.
use history::{Item, Trace, check_order};
use objects::{Object, read_object};
use plain::{Reason, Reply, RequestError, read_request};
use std::alloc::{AllocError, Global};
use std::process::Abort;
use std::test::Fail;

/// What is at an index: a call, as its request line, or a reply, with its object as a text.
pub(crate) enum Content {
    Call(&'static str),
    Created(&'static str),
    Found(&'static str),
    NotFound,
    Conflict,
}

/// An index, a caller, and what is there.
pub(crate) type Row = (u64, u64, Content);

/// What an order shows, the order, and whether it is legal.
type Order = (&'static str, &'static [u64], bool);

const GET: &str = r#"{"do":"get","kind":"Pod","name":"b"}"#;

const CREATE: &str = r#"{"do":"create","object":{"kind":"Pod","metadata":{"name":"b"}}}"#;

const B_AT_1: &str =
    r#"{"kind":"Pod","metadata":{"generation":1,"name":"b","namespace":"default","resourceVersion":"1","uid":"00000000-0000-4000-8000-000000000001"}}"#;

/// The largest index.
const LAST: u64 = u64::MAX;

/// An update of `b` at the resource version 1 has met another one, which drew the resource version 3 while the creation
/// of `a` holds 2. A get finds the resource version 1 meanwhile, and then the first update gets its conflict.
pub(crate) static EARLY_CONFLICT: [Row; 8] = [
    (0, 1, Content::Call(CREATE)),
    (5, 1, Content::Created(B_AT_1)),
    (
        6,
        2,
        Content::Call(r#"{"do":"create","object":{"kind":"Pod","metadata":{"name":"a"}}}"#),
    ),
    (
        9,
        1,
        Content::Call(
            r#"{"do":"update","object":{"kind":"Pod","metadata":{"labels":{"x":"y"},"name":"b","resourceVersion":"1"}}}"#,
        ),
    ),
    (
        13,
        3,
        Content::Call(
            r#"{"do":"update","object":{"kind":"Pod","metadata":{"name":"b","resourceVersion":"1"}}}"#,
        ),
    ),
    (16, 4, Content::Call(GET)),
    (19, 4, Content::Found(B_AT_1)),
    (23, 3, Content::Conflict),
];

static EARLY_CONFLICT_ORDERS: [Order; 8] = [
    ("an early conflict", &[0, 16, 6, 9, 13], true),
    (
        "a conflict before the update that it came upon",
        &[0, 16, 6, 13, 9],
        false,
    ),
    (
        "a get behind an update that it did not see",
        &[0, 6, 9, 13, 16],
        false,
    ),
    (
        "a request that was answered and is left out",
        &[0, 16, 6, 9],
        false,
    ),
    ("a request twice", &[0, 16, 6, 9, 13, 13], false),
    (
        "a place at which nobody called",
        &[0, 16, 6, 9, 13, 7],
        false,
    ),
    ("a place of a reply", &[0, 16, 6, 9, 13, 5], false),
    ("a place past the end", &[0, 16, 6, 9, 13, 24], false),
];

/// Traces of a store of one revision, and orders of them.
static TRACES: [(&[Row], &[Order]); 12] = [
    (
        &[
            (0, 1, Content::Call(GET)),
            (1, 1, Content::NotFound),
            (2, 2, Content::Call(GET)),
            (3, 2, Content::NotFound),
        ],
        &[
            ("gets in turn", &[0, 2], true),
            (
                "a request behind one that was called after its reply",
                &[2, 0],
                false,
            ),
        ],
    ),
    (
        &[
            (0, 1, Content::Call(GET)),
            (1, 2, Content::Call(GET)),
            (2, 1, Content::NotFound),
            (3, 2, Content::NotFound),
        ],
        &[
            ("gets at once", &[0, 1], true),
            ("gets at once, the other way", &[1, 0], true),
        ],
    ),
    (
        &[
            (0, 1, Content::Call(CREATE)),
            (1, 2, Content::Call(GET)),
            (2, 2, Content::Found(B_AT_1)),
        ],
        &[
            ("a creation that nobody was told of", &[0, 1], true),
            ("a get of what nobody created", &[1], false),
        ],
    ),
    (
        &[
            (0, 1, Content::Call(CREATE)),
            (1, 2, Content::Call(GET)),
            (2, 2, Content::NotFound),
        ],
        &[
            ("a creation that is left out", &[1], true),
            ("a creation that comes later", &[1, 0], true),
            ("a creation that is not found", &[0, 1], false),
        ],
    ),
    (
        &[
            (7, 1, Content::Call(GET)),
            (1_000_000, 1, Content::NotFound),
        ],
        &[
            ("places with gaps", &[7], true),
            ("a place in a gap", &[8], false),
        ],
    ),
    (
        &[],
        &[
            ("nothing", &[], true),
            ("a request of nothing", &[0], false),
        ],
    ),
    (
        &[(0, 1, Content::NotFound)],
        &[("a reply to no call", &[], false)],
    ),
    (
        &[(0, 1, Content::Call(GET)), (1, 2, Content::NotFound)],
        &[("a reply to another caller", &[0], false)],
    ),
    (
        &[
            (0, 1, Content::Call(GET)),
            (1, 1, Content::NotFound),
            (2, 1, Content::NotFound),
        ],
        &[("two replies to one call", &[0], false)],
    ),
    (
        &[
            (0, 1, Content::Call(GET)),
            (1, 1, Content::Call(GET)),
            (2, 1, Content::NotFound),
        ],
        &[("a call of one that waits", &[0, 1], false)],
    ),
    (
        &[(1, 1, Content::Call(GET)), (0, 1, Content::NotFound)],
        &[("places that fall", &[1], false)],
    ),
    (
        &[(LAST, 1, Content::Call(GET)), (LAST, 1, Content::NotFound)],
        &[("two at one place", &[LAST], false)],
    ),
];

fn object(alloc: Global, text: &str) -> Result<Object, RequestError> {
    let draft = read_object(alloc, text.as_bytes())?;
    Ok(draft.object)
}

fn reply(alloc: Global, content: &Content) -> Result<Reply, RequestError> {
    Ok(match content {
        Content::Created(text) => Reply::Created(object(alloc, text)?),
        Content::Found(text) => Reply::Found(object(alloc, text)?),
        Content::Conflict => Reply::Refused(Reason::Conflict),
        _ => Reply::Refused(Reason::NotFound),
    })
}

fn item(alloc: Global, row: &Row) -> Result<Item, RequestError> {
    let (place, caller, content) = row;
    if let Content::Call(line) = content {
        return Ok(Item::Call {
            place: *place,
            caller: *caller,
            request: read_request(alloc, line.as_bytes())?,
        });
    }
    Ok(Item::Reply {
        place: *place,
        caller: *caller,
        reply: reply(alloc, content)?,
    })
}

fn add_items(alloc: Global, items: &mut Vec<Item>, rows: &[Row]) -> Result<(), RequestError> {
    for row in rows {
        items.push(item(alloc, row)?).map_err(AllocError::from)?;
    }
    Ok(())
}

/// The trace of these rows, of a store of so many revisions.
pub(crate) fn trace(alloc: Global, capacity: u64, rows: &[Row]) -> Result<Trace, RequestError> {
    let mut items = Vec::new(alloc);
    match add_items(alloc, &mut items, rows) {
        Ok(()) => Ok(Trace { capacity, items }),
        Err(error) => {
            drop(items);
            Err(error)
        }
    }
}

fn assert_so(rt: &impl Abort, is_so: bool, row: &str) {
    assert!(rt; is_so, "of {row}");
}

fn assert_orders(
    rt: &impl Abort,
    alloc: Global,
    trace: &Trace,
    orders: &[Order],
) -> Result<(), Fail> {
    for (what, order, is_legal) in orders {
        assert_so(rt, check_order(alloc, trace, order)? == *is_legal, what);
    }
    Ok(())
}

fn assert_trace(
    rt: &impl Abort,
    alloc: Global,
    capacity: u64,
    rows: &[Row],
    orders: &[Order],
) -> Result<(), Fail> {
    let trace = trace(alloc, capacity, rows)?;
    let asserted = assert_orders(rt, alloc, &trace, orders);
    drop(trace);
    asserted
}

#[test]
fn orders_are_legal_or_not(rt: HostRuntime) -> Result<(), Fail> {
    let rows = EARLY_CONFLICT.as_slice();
    assert_trace(&rt, rt.alloc(), 100, rows, EARLY_CONFLICT_ORDERS.as_slice())?;
    for (rows, orders) in TRACES.iter() {
        assert_trace(&rt, rt.alloc(), 1, rows, orders)?;
    }
    Ok(())
}

static ANSWERED: [Row; 2] = [(0, 1, Content::Call(GET)), (LAST, 1, Content::NotFound)];

/// Capacities, and whether a plain store may have them.
static CAPACITIES: [(u64, &[Order]); 4] = [
    (0, &[("a capacity of none", &[0], false)]),
    (1, &[("the least capacity", &[0], true)]),
    (1_048_576, &[("the largest capacity", &[0], true)]),
    (1_048_577, &[("a capacity past the largest", &[0], false)]),
];

#[test]
fn the_capacity_is_a_plain_store_s(rt: HostRuntime) -> Result<(), Fail> {
    for (capacity, orders) in CAPACITIES.iter() {
        assert_trace(&rt, rt.alloc(), *capacity, ANSWERED.as_slice(), orders)?;
    }
    Ok(())
}
