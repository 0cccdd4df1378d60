ghost use Rattle.std.specs.Prelude.{◌≡◌, codes, option_map, option_and_then};
ghost use Rattle.serde_json.specs.Find.{get_member, as_str};
ghost use Rattle.plain.specs.Verbs.{verb_named, verb_in};

use crate::lines::request_error::RequestError;
use objects::Members;

/// The operation that a request names.
#[derive(Clone, Copy)]
pub(crate) enum Verb {
    Create,
    Get,
    List,
    Update,
    Status,
    Delete,
    Compact,
}

impl Verb {
    pub(crate) fn named(name: &str) -> Option<Verb>
        ensures { result ≡ verb_named name.now }
    {
        if name == "create" {
            Some(Verb::Create)
        } else if name == "get" {
            Some(Verb::Get)
        } else if name == "list" {
            Some(Verb::List)
        } else if name == "update" {
            Some(Verb::Update)
        } else if name == "status" {
            Some(Verb::Status)
        } else if name == "delete" {
            Some(Verb::Delete)
        } else if name == "compact" {
            Some(Verb::Compact)
        } else {
            None
        }
    }
}

pub(crate) fn verb_in(members: &Members) -> Result<Verb, RequestError>
    ensures { result ≡ verb_in members.now }
{
    match verb_name(members) {
        Some(name) => Verb::named(name).ok_or(RequestError::UnknownVerb),
        None => Err(RequestError::NoVerb),
    }
}

fn verb_name(members: &Members) -> Option<&str>
    ensures { option_map (λ name. name.now) result ≡ option_and_then as_str (get_member (codes "do") members.now) }
{
    members.get("do")?.as_text()
}
