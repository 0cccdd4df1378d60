//! Requests to a store known only as an `Api`, and one that no line makes.
use objects::{Kind, Memory, ReadError, Text};
use plain::{Api, ApiFault, Plain, Reason, Reply, Request, RequestError, read_request};
use std::alloc::Global;
use std::test::Fail;

fn told<A: Api>(api: &mut A, request: Request) -> Result<Reply, Memory> {
    match api.ask(request) {
        Ok(reply) => Ok(reply),
        Err(ApiFault::Memory) => Err(Memory),
    }
}

/// The reply to a line.
pub(crate) fn asked(alloc: Global, plain: &mut Plain, line: &str) -> Result<Reply, Memory> {
    match read_request(alloc, line.as_bytes()) {
        Ok(request) => told(plain, request),
        Err(RequestError::Read(ReadError::Memory)) => Err(Memory),
        Err(_) => Ok(Reply::Refused(Reason::Invalid)),
    }
}

/// How many pods of that namespace a list has.
fn listed(alloc: Global, plain: &mut Plain, namespace: &str) -> Result<Option<usize>, Memory> {
    let list = Request::List {
        kind: Kind::Pod,
        namespace: Text::copy_of(alloc, namespace)?,
        exact: 0,
    };
    let reply = told(plain, list)?;
    let count = match &reply {
        Reply::Listed {
            objects,
            revision: 1,
        } => Some(objects.as_slice().len()),
        _ => None,
    };
    drop(reply);
    Ok(count)
}

#[test]
fn a_namespace_that_no_object_can_be_in_has_none(rt: HostRuntime) -> Result<(), Fail> {
    let mut plain = Plain::new(rt.alloc(), 1)?;
    let create = r#"{"do":"create","object":{"kind":"Pod","metadata":{"name":"a"}}}"#;
    drop(asked(rt.alloc(), &mut plain, create));
    let default = listed(rt.alloc(), &mut plain, "default");
    let capitals = listed(rt.alloc(), &mut plain, "X");
    let no_text = listed(rt.alloc(), &mut plain, "");
    drop(plain);
    assert!(rt; default == Ok(Some(1)) && capitals == Ok(Some(0)) && no_text == Ok(Some(0)));
    Ok(())
}
