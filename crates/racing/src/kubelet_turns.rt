// The kubelet's turns.
ghost use Rattle.std.specs.Prelude.{◌≡◌, ◌+◌, [], ◌∷◌, List, IfOk, OnOk, codes};
ghost use Rattle.objects.specs.Key.{key_parts};
ghost use Rattle.requests.specs.declared.request.Request.{Request};
ghost use Rattle.racing.specs.Answered.{Learns};
ghost use Rattle.racing.specs.Parts.{HasTurned, IsTurning, asks_after, left_by, lists_pods, turns_to};

use crate::field::{RaceContext, last_reply};
use crate::shared::SharedStore;
use objects::{Key, Kind, Memory, Text};
use race_log::{NAMESPACE, TimedExchange, set_key};
use requests::{Reply, Request};
use rounds::kubelet_requests;
use std::alloc::Global;
use std::sync::Wait;
use store::Gate;

/// How many turns it makes at most, for each round of a controller.
const TURNS: u64 = 64;

/// How often it looks, at most, whether anything was written since its last turn.
const LOOKS: u64 = 64;

/// How many microseconds it sleeps between two looks, at first and at most: each sleep is twice as long as the last
/// one.
const FIRST_SLEEP: u64 = 50;

const LONGEST_SLEEP: u64 = 3_200;

fn list_of_pods(alloc: Global) -> Result<Request, Memory>
    ensures { IfOk result (λ request. request ≡ lists_pods) }
{
    Ok(Request::List {
        kind: Kind::Pod,
        namespace: Text::copy_of(alloc, NAMESPACE)?,
        // 0 means the objects as they are now.
        exact: 0,
    })
}

/// What it sends after a list.
fn requests_after(alloc: Global, reply: &Reply) -> Result<Vec<Request>, Memory>
    ensures { IfOk result (λ requests. requests.items ≡ asks_after reply.now) }
{
    match reply {
        Reply::Listed {
            objects,
            revision: _,
        } => kubelet_requests(alloc, objects.as_slice()),
        _ => Ok(Vec::new(alloc)),
    }
}

/// Lists the pods after so many turns, and returns what it sends after that.
#[tactic(auto, using(crate::proofs::Standing::turning_more))]
fn begin_turn<S: SharedStore, R: Wait, G: Gate>(
    rt: &R,
    field: &RaceContext<'_, S, G>,
    caller: &mut S::Caller,
    exchanges: &mut Vec<TimedExchange>,
    turns: u64,
) -> Result<Vec<Request>, Memory>
    requires { IsTurning S.shards S.capacity (S.known caller.old) turns [] exchanges.old.items }
    ensures { IfOk result (λ left. IsTurning S.shards S.capacity (S.known caller.new) (turns + 1) left.items exchanges.new.items) }
{
    field.ask(rt, caller, exchanges, list_of_pods(field.course.alloc)?)?;
    match last_reply(exchanges.as_slice()) {
        Some(reply) => requests_after(field.course.alloc, reply),
        // The reply was just noted.
        None => unreachable!(),
    }
}

/// One more turn: lists the pods, removes the marked ones, and makes the others ready. A refusal is ignored. Returns
/// whether there was anything to do.
#[tactic(auto, using(crate::proofs::Standing::turning_next))]
fn make_turn<S: SharedStore, R: Wait, G: Gate>(
    rt: &R,
    field: &RaceContext<'_, S, G>,
    caller: &mut S::Caller,
    exchanges: &mut Vec<TimedExchange>,
    turns: u64,
) -> Result<bool, Memory>
    requires { IsTurning S.shards S.capacity (S.known caller.old) turns [] exchanges.old.items }
    ensures { OnOk result (IsTurning S.shards S.capacity (S.known caller.new) (turns + 1) [] exchanges.new.items) }
{
    let requests = begin_turn(rt, field, caller, exchanges, turns)?;
    let is_busy = !requests.is_empty();
    for request in requests {
        field.ask(rt, caller, exchanges, request)?;
    }
    Ok(is_busy)
}

/// Sleeps until something was written since the caller looked, or all controllers have ended, but for at most so many
/// looks. An earlier list would show what the last one showed.
#[tactic(auto, using(crate::proofs::Giving::learns_self, crate::proofs::Giving::learns_trans))]
fn wait_for_news<S: SharedStore, R: Wait, G: Gate>(
    rt: &R,
    field: &RaceContext<'_, S, G>,
    caller: &mut S::Caller,
    key: &Key,
) -> Result<(), Memory>
    ensures { OnOk result (Learns (S.known caller.old) (S.known caller.new)) }
{
    let listed = field.store.seen(caller);
    let mut micros = FIRST_SLEEP;
    for _ in 0..LOOKS {
        drop(field.store.get(rt, caller, key)?);
        if field.course.has_ended() || field.store.seen(caller) != listed {
            break;
        }
        field.course.sleep(rt, micros);
        micros = micros.saturating_mul(2).min(LONGEST_SLEEP);
    }
    Ok(())
}

/// One turn, and then more until all controllers have ended, at most 64 for each round in all.
fn make_turns<S: SharedStore, R: Wait, G: Gate>(
    rt: &R,
    field: &RaceContext<'_, S, G>,
    caller: &mut S::Caller,
    key: &Key,
) -> Result<Vec<TimedExchange>, Memory>
    ensures { IfOk result (λ exchanges. HasTurned S.shards S.capacity field.now.course.now.spec.rounds exchanges.items) }
{
    let mut exchanges = Vec::new(field.course.alloc);
    make_turn(rt, field, caller, &mut exchanges, 0)?;
    for turns in 1..field.course.spec.rounds.saturating_mul(TURNS) {
        if field.course.has_ended() {
            break;
        }
        if !make_turn(rt, field, caller, &mut exchanges, turns)? {
            wait_for_news(rt, field, caller, key)?;
        }
    }
    Ok(exchanges)
}

/// All turns of the kubelet.
pub(crate) fn run_kubelet<S: SharedStore, R: Wait, G: Gate>(
    rt: &R,
    field: &RaceContext<'_, S, G>,
    mut caller: S::Caller,
) -> Result<Vec<TimedExchange>, Memory>
    ensures { IfOk result (λ exchanges. HasTurned S.shards S.capacity field.now.course.now.spec.rounds exchanges.items) }
{
    let key = set_key(field.course.alloc)?;
    let made = make_turns(rt, field, &mut caller, &key);
    drop(key);
    made
}
