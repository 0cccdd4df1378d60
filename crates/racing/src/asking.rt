// How a racer sends requests.
ghost use Rattle.std.specs.Prelude.{◌≡◌, true, false, IfOk};
ghost use Rattle.requests.specs.Verdict.{is_write};
ghost use Rattle.racing.specs.Answered.{HasReply};

use crate::shared::SharedStore;
use objects::Memory;
use requests::{Reply, Request};
use std::sync::Wait;
use std::thread::yield_now;
use store::Gate;

/// Sends a write, and tries to get its reply until it comes.
#[tactic(auto, using(crate::proofs::Giving::learns_trans, crate::proofs::Giving::replied_to))]
fn ask_write<S: SharedStore, R: Wait, G: Gate>(
    rt: &R,
    store: &S,
    gate: &G,
    caller: &mut S::Caller,
    request: Request,
) -> Result<(Reply, u64), Memory>
    requires { is_write request ≡ true }
    ensures { IfOk result (λ r. HasReply S.shards S.capacity (S.known caller.old) (S.known caller.new) request r.0 r.1) }
{
    let mut ticket = store.submit(rt, caller, request, gate)?;
    let mut seen = store.seen(caller);
    for _ in rt.forever() {
        if let Some(reply) = store.try_reply(&mut ticket, caller) {
            let place = store.place(&ticket);
            return Ok((reply, place));
        }
        let now = store.seen(caller);
        // A try that raised the frontier is repeated at once: there is something to wait for only if the next number is
        // a hole.
        if now == seen {
            yield_now();
        }
        seen = now;
    }
    unreachable!()
}

/// Sends a request that is no write.
fn read<S: SharedStore, R: Wait>(
    rt: &R,
    store: &S,
    caller: &mut S::Caller,
    request: &Request,
) -> Result<(Reply, u64), Memory>
    requires { is_write request.now ≡ false }
    ensures { IfOk result (λ r. HasReply S.shards S.capacity (S.known caller.old) (S.known caller.new) request.now r.0 r.1) }
{
    let reply = match request {
        Request::Get(key) => store.get(rt, caller, key)?,
        Request::List {
            kind,
            namespace,
            // 0 means the objects as they are now.
            exact: 0,
        } => store.list(rt, caller, *kind, namespace)?,
        Request::List {
            kind,
            namespace,
            exact,
        } => store.list_at(rt, caller, *kind, namespace, *exact)?,
        Request::Compact { to } => store.compact(rt, caller, *to),
        _ => unreachable!(),
    };
    Ok((reply, store.seen(caller)))
}

/// Sends a request, and tries to get the reply to a write until it comes. Returns the reply and its number: that of an
/// accepted write, or else the one up to which the answer looked.
pub fn answered<S: SharedStore, R: Wait, G: Gate>(
    rt: &R,
    store: &S,
    gate: &G,
    caller: &mut S::Caller,
    request: Request,
) -> Result<(Reply, u64), Memory>
    ensures { IfOk result (λ r. HasReply S.shards S.capacity (S.known caller.old) (S.known caller.new) request r.0 r.1) }
{
    if request.is_write() {
        return ask_write(rt, store, gate, caller, request);
    }
    let answer = read(rt, store, caller, &request);
    drop(request);
    answer
}
