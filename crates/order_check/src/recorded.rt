// A request that a store handles, and the reply that was recorded of it. Gets and lists are compared with what the
// store keeps, which copies nothing.
ghost use Rattle.std.specs.Prelude.{◌≡◌, ◌↔◌, true, IfOk, IsTrue, OnOk};
ghost use Rattle.std.specs.Option.{option_copied};
ghost use Rattle.order_check.specs.Recorded.{Fits};
ghost use Rattle.plain_store.specs.Route.{is_read};
ghost use Rattle.plain_store.specs.Store.{collection, denied, listed_at, map_at, step};
ghost use Rattle.requests.specs.declared.reply.Reply.TheVariants.{Listed};

use crate::same::{is_change, is_found, is_listed, is_refused};
use objects::{Kind, Memory, Printer, Text};
use plain_store::Trees;
use requests::{Reply, Request};

/// Sends the store one whole request, and says whether the recorded reply is the one to it. If none is recorded, any
/// is.
pub(crate) fn take(
    store: &mut Trees,
    printer: &mut Printer,
    request: &Request,
    recorded: Option<&Reply>,
) -> Result<bool, Memory>
    ensures fits { IfOk result (λ yes. IsTrue yes ↔ Fits (option_copied recorded.entry) (step store.old request.now).1) }
    ensures stepped { OnOk result (store.new ≡ (step store.old request.now).0) }
{
    match request {
        Request::Get(_)
        | Request::List {
            kind: _,
            namespace: _,
            exact: _,
        } => match recorded {
            Some(recorded) => is_read(store, printer, request, recorded),
            None => Ok(true),
        },
        Request::Compact { to: _ }
        | Request::Create(_)
        | Request::Update(_)
        | Request::UpdateStatus(_)
        | Request::Delete {
            key: _,
            uid: _,
            version: _,
            at: _,
        } => {
            let reply = store.take(request.clone()?)?;
            let is_the_one = is_change(printer, recorded, &reply);
            drop(reply);
            is_the_one
        }
    }
}

/// Whether the reply is that to a get or to a list.
fn is_read(
    store: &Trees,
    printer: &mut Printer,
    request: &Request,
    recorded: &Reply,
) -> Result<bool, Memory>
    requires { is_read request.now ≡ true }
    ensures { IfOk result (λ yes. IsTrue yes ↔ (recorded.now ≡ (step store.now request.now).1)) }
{
    match request {
        Request::Get(key) => is_found(printer, recorded, store.find(key)),
        Request::List {
            kind,
            namespace,
            exact,
        } => {
            // 0 means the list as it is now.
            if *exact == 0 {
                is_listed_now(store, printer, *kind, namespace, recorded)
            } else {
                is_listed_at(store, printer, *kind, namespace, *exact, recorded)
            }
        }
        Request::Create(_)
        | Request::Update(_)
        | Request::UpdateStatus(_)
        | Request::Delete {
            key: _,
            uid: _,
            version: _,
            at: _,
        }
        | Request::Compact { to: _ } => unreachable!(),
    }
}

/// Whether the reply is that to a list of what is there.
fn is_listed_now(
    store: &Trees,
    printer: &mut Printer,
    kind: Kind,
    namespace: &Text,
    recorded: &Reply,
) -> Result<bool, Memory>
    ensures { IfOk result (λ yes. IsTrue yes ↔ (recorded.now ≡ Listed (collection store.now.objects kind namespace.now) store.now.counter)) }
{
    let objects = store.list_now(kind, namespace)?;
    is_listed(printer, recorded, objects.as_slice(), store.revision())
}

/// Whether the reply is that to a list at a number, which may be denied.
fn is_listed_at(
    store: &Trees,
    printer: &mut Printer,
    kind: Kind,
    namespace: &Text,
    number: u64,
    recorded: &Reply,
) -> Result<bool, Memory>
    ensures { IfOk result (λ yes. IsTrue yes ↔ (recorded.now
        ≡ listed_at number (collection (map_at store.now number) kind namespace.now) (denied store.now.floor store.now.counter number))) }
{
    match store.denied(number) {
        Some(reason) => Ok(is_refused(recorded, reason)),
        None => {
            let objects = store.list_at(kind, namespace, number)?;
            is_listed(printer, recorded, objects.as_slice(), number)
        }
    }
}
