//! A controller, a store, and requests as words.
ghost use Rattle.std.specs.Prelude.{◌≡◌, IfOk};
ghost use Rattle.controllers.specs.Controller.{phase_of};
ghost use Rattle.controllers.specs.Phase.{reading_set};

use controllers::Controller;
use objects::{Key, Memory};
use plain::{Request, read_request};
use plain_store::Trees;
use std::alloc::Global;

pub(crate) const MOMENT: &str = "2024-01-01T00:00:00Z";

/// A set of one replica.
pub(crate) const ONE: &str =
    r#"{"do":"create","object":{"kind":"StatefulSet","metadata":{"name":"web"},"spec":{"replicas":1,"template":{}}}}"#;

/// A request's verb, the kind that it names, and the name, which a list has none of.
pub(crate) type Named = (&'static str, &'static str, &'static str);

pub(crate) const GET_SET: Named = ("get", "StatefulSet", "web");

pub(crate) const STATUS: Named = ("status", "StatefulSet", "web");

pub(crate) const LIST_SETS: Named = ("list", "StatefulSet", "");

pub(crate) const LIST_REVISIONS: Named = ("list", "ControllerRevision", "");

pub(crate) const LIST_PODS: Named = ("list", "Pod", "");

pub(crate) const LIST_CLAIMS: Named = ("list", "PersistentVolumeClaim", "");

/// A controller of the set `web` in the namespace `default`.
#[tactic(auto, unfolding(objects::specs::Names::is_dns_label))]
pub(crate) fn controller(alloc: Global) -> Result<Controller, Memory>
    ensures { IfOk result (λ c. phase_of c ≡ reading_set) }
{
    Controller::new(alloc, "default", "web", 10, MOMENT)
}

/// A new store.
pub(crate) fn store(alloc: Global) -> Result<Trees, Memory> {
    match Trees::new(alloc, 10_000) {
        Ok(store) => Ok(store),
        Err(_) => Err(Memory),
    }
}

pub(crate) fn request_of(alloc: Global, line: &str) -> Result<Request, Memory> {
    match read_request(alloc, line.as_bytes()) {
        Ok(request) => Ok(request),
        Err(_) => Err(Memory),
    }
}

fn is_named(verb: &str, key: &Key, wanted: &Named) -> bool {
    verb == wanted.0 && key.kind.name() == wanted.1 && key.name.as_str() == wanted.2
}

pub(crate) fn is_asked(request: &Request, wanted: &Named) -> bool {
    match request {
        Request::Create(draft) => is_named("create", &draft.object.key, wanted),
        Request::Get(key) => is_named("get", key, wanted),
        Request::List {
            kind,
            namespace: _,
            exact: _,
        } => wanted.0 == "list" && kind.name() == wanted.1,
        Request::Update(draft) => is_named("update", &draft.object.key, wanted),
        Request::UpdateStatus(draft) => is_named("status", &draft.object.key, wanted),
        Request::Delete {
            key,
            uid: _,
            version: _,
            at: _,
        } => is_named("delete", key, wanted),
        Request::Compact { to: _ } => false,
    }
}
