// The event of a line of a replay's script.
ghost use Rattle.std.specs.Prelude.{◌≡◌};
ghost use Rattle.objects.specs.Tree.{data_of};
ghost use Rattle.plain.specs.Requests.{request_in as plain_request_in};
ghost use Rattle.scripts.specs.Events.{Reads, call_in, event_in, read_fault, request_fault, request_in, unless_refused};

use crate::fault::ScriptError;
use crate::line::{count_in, text_in};
use crate::step::step_in;
use history::Event;
use objects::{Members, ReadError, Tree};
use plain::{Request, RequestError};
use std::alloc::Global;

/// The event that these members give.
pub(crate) fn event_in(alloc: Global, members: Members) -> Result<Event, ScriptError>
    ensures { Reads (λ event. event) result (event_in members) }
{
    let Some(word) = text_in(&members, "event") else {
        return Err(ScriptError::BadScript);
    };
    if word == "call" {
        return call_in(alloc, members);
    }
    match step_in(word, &members) {
        Some(event) => Ok(event),
        None => Err(ScriptError::BadScript),
    }
}

#[tactic(auto, using(crate::proofs::Readings::fails_bind))]
fn call_in(alloc: Global, members: Members) -> Result<Event, ScriptError>
    ensures { Reads (λ event. event) result (call_in members) }
{
    let Some(caller) = count_in(&members, "caller") else {
        return Err(ScriptError::BadScript);
    };
    let request = request_in(alloc, members)?;
    Ok(Event::Call(caller, request))
}

/// The request in the member `request`, as a request line of `serve`.
///
/// # Errors
///
/// `BadScript` if it is missing or no request.
pub fn request_in(alloc: Global, members: Members) -> Result<Request, ScriptError>
    ensures { Reads (λ request. request) result (request_in members) }
{
    let Some(value) = members.take("request")? else {
        return Err(ScriptError::BadScript);
    };
    request_of(alloc, value)
}

fn request_of(alloc: Global, value: Tree) -> Result<Request, ScriptError>
    ensures { Reads (λ request. request) result (unless_refused (plain_request_in (data_of value))) }
{
    match plain::request_in(alloc, value) {
        Ok(request) => Ok(request),
        Err(error) => Err(fault_of(error)),
    }
}

fn fault_of(error: RequestError) -> ScriptError
    ensures { result ≡ request_fault error }
{
    match error {
        RequestError::Read(error) => read_fault(error),
        RequestError::NoVerb | RequestError::UnknownVerb | RequestError::BadField => {
            ScriptError::BadScript
        }
    }
}

fn read_fault(error: ReadError) -> ScriptError
    ensures { result ≡ read_fault error }
{
    match error {
        ReadError::NotJson
        | ReadError::NotWhole
        | ReadError::NoKind
        | ReadError::UnknownKind
        | ReadError::BadName
        | ReadError::BadMeta
        | ReadError::TooLong => ScriptError::BadScript,
        ReadError::Memory => ScriptError::Memory,
    }
}
