// Whether two requests are the same.
ghost use Rattle.std.specs.Prelude.{◌≡◌};
ghost use Rattle.std.specs.Option.{option_copied};
ghost use Rattle.race_scripts.specs.Same.{same_draft, same_plain, same_request};
ghost use Rattle.requests.specs.Same.{same_meta, same_object, same_time};

use objects::{Draft, Meta, Object, Text};
use plain::Request;

/// Whether both requests are the same.
pub(crate) fn same_request(left: &Request, right: &Request) -> bool
    ensures { result ≡ same_request left.now right.now }
{
    match left {
        Request::Create(draft) => match right {
            Request::Create(other) => same_draft(draft, other),
            _ => false,
        },
        Request::Update(draft) => match right {
            Request::Update(other) => same_draft(draft, other),
            _ => false,
        },
        Request::UpdateStatus(draft) => match right {
            Request::UpdateStatus(other) => same_draft(draft, other),
            _ => false,
        },
        _ => same_plain(left, right),
    }
}

/// The same for requests without an object; for others it is false.
fn same_plain(left: &Request, right: &Request) -> bool
    ensures { result ≡ same_plain left.now right.now }
{
    match left {
        Request::Get(key) => matches!(right, Request::Get(other) if *key == *other),
        Request::List {
            kind,
            namespace,
            exact,
        } => match right {
            Request::List {
                kind: other_kind,
                namespace: other_namespace,
                exact: other_exact,
            } => {
                *kind == *other_kind
                    && namespace.as_str() == other_namespace.as_str()
                    && *exact == *other_exact
            }
            _ => false,
        },
        Request::Delete {
            key,
            uid,
            version,
            at,
        } => match right {
            Request::Delete {
                key: other_key,
                uid: other_uid,
                version: other_version,
                at: other_at,
            } => {
                *key == *other_key
                    && same_text(uid.as_ref(), other_uid.as_ref())
                    && same_text(version.as_ref(), other_version.as_ref())
                    && same_text(at.as_ref(), other_at.as_ref())
            }
            _ => false,
        },
        Request::Compact { to } => matches!(right, Request::Compact { to: other } if *to == *other),
        Request::Create(_) | Request::Update(_) | Request::UpdateStatus(_) => false,
    }
}

fn same_draft(left: &Draft, right: &Draft) -> bool
    ensures { result ≡ same_draft left.now right.now }
{
    same_object(&left.object, &right.object)
        && same_text(left.uid.as_ref(), right.uid.as_ref())
        && same_text(left.version.as_ref(), right.version.as_ref())
}

fn same_object(left: &Object, right: &Object) -> bool
    ensures { result ≡ same_object left.now right.now }
{
    left.key == right.key && same_meta(&left.meta, &right.meta) && left.body.is_same(&right.body)
}

fn same_meta(left: &Meta, right: &Meta) -> bool
    ensures { result ≡ same_meta left.now right.now }
{
    left.uid == right.uid
        && left.revision == right.revision
        && left.generation == right.generation
        && same_text(left.deletion.as_ref(), right.deletion.as_ref())
}

fn same_text(left: Option<&Text>, right: Option<&Text>) -> bool
    ensures { result ≡ same_time (option_copied left.entry) (option_copied right.entry) }
{
    match left {
        Some(left) => match right {
            Some(right) => left.as_str() == right.as_str(),
            None => false,
        },
        None => right.is_none(),
    }
}
