// The request that a line is.
ghost use Rattle.std.specs.Prelude.{◌≡◌, codes};
ghost use Rattle.serde_json.specs.Find.{get_member};
ghost use Rattle.objects.specs.Reading.{reading_of_data};
ghost use Rattle.objects.specs.Steps.{Gives};
ghost use Rattle.objects.specs.Tree.{data_of};
ghost use Rattle.plain.specs.Requests.{Answers, request_in, request_of, object_draft, list_in, exact_in, deletion_in, compaction_in, named_in, field_text, stored_number};
ghost use Rattle.plain.specs.Verbs.{request_by};

use crate::lines::compact_line::compact_get;
use crate::lines::request_error::RequestError;
use crate::lines::verb::{Verb, verb_in};
use objects::{
    Draft, Members, ReadError, Text, Tree, TreeReader, read_collection, read_draft, read_key,
    version_number,
};
use requests::Request;
use std::alloc::Global;

/// The request that a line, without its line end, is.
///
/// # Errors
///
/// The first that applies: what `read_tree` refuses; NoVerb, UnknownVerb; what the object or the key is refused with, as
/// `read_draft` and `read_key` do; BadField.
pub fn read_request(alloc: Global, line: &[u8]) -> Result<Request, RequestError>
    ensures { Answers result (request_of line.now) }
{
    if let Some(key) = compact_get(alloc, line)? {
        return Ok(Request::Get(key));
    }
    next_request(alloc, &mut TreeReader::new(alloc), line)
}

/// As `read_request`, by a tree of the line, in the memory of a reader that reads one line after another.
pub(crate) fn next_request(
    alloc: Global,
    reader: &mut TreeReader,
    line: &[u8],
) -> Result<Request, RequestError>
    ensures { Answers result (request_of line.now) }
{
    let value = value_in(reader, line)?;
    request_in(alloc, value)
}

/// The request that a value is: a request line of `serve`, read as JSON.
pub fn request_in(alloc: Global, value: Tree) -> Result<Request, RequestError>
    ensures { Answers result (request_in (data_of value)) }
{
    let Tree::Map(members) = value else {
        return Err(RequestError::NoVerb);
    };
    let verb = verb_in(&members)?;
    request_by(alloc, verb, members)
}

// The value that a line is.
fn value_in(reader: &mut TreeReader, line: &[u8]) -> Result<Tree, ReadError>
    ensures { Gives data_of result (reading_of_data line.now) }
{
    Ok(reader.read(line)?)
}

fn request_by(alloc: Global, verb: Verb, members: Members) -> Result<Request, RequestError>
    ensures { Answers result (request_by verb members) }
{
    match verb {
        Verb::Create => Ok(Request::Create(draft_in(alloc, members)?)),
        Verb::Get => Ok(Request::Get(read_key(alloc, &members)?)),
        Verb::List => list_in(alloc, &members),
        Verb::Update => Ok(Request::Update(draft_in(alloc, members)?)),
        Verb::Status => Ok(Request::UpdateStatus(draft_in(alloc, members)?)),
        Verb::Delete => deletion_in(alloc, &members),
        Verb::Compact => compaction_in(&members),
    }
}

fn list_in(alloc: Global, members: &Members) -> Result<Request, RequestError>
    ensures { Answers result (list_in members.now) }
{
    let (kind, namespace) = read_collection(alloc, members)?;
    let exact = exact_in(members)?;
    Ok(Request::List {
        kind,
        namespace,
        exact,
    })
}

/// The resource version at which a list is to be read, or 0 for the newest.
fn exact_in(members: &Members) -> Result<u64, RequestError>
    ensures { result ≡ exact_in members.now }
{
    match members.get("resourceVersion") {
        None | Some(Tree::Null) => Ok(0),
        Some(Tree::Text(text)) if text.as_str().is_empty() || text.as_str() == "0" => Ok(0),
        Some(Tree::Text(text)) => stored_number(text.as_str()),
        Some(_) => Err(RequestError::BadField),
    }
}

fn compaction_in(members: &Members) -> Result<Request, RequestError>
    ensures { Answers result (compaction_in members.now) }
{
    let to = named_in(members)?;
    Ok(Request::Compact { to })
}

/// The resource version that a compaction names.
fn named_in(members: &Members) -> Result<u64, RequestError>
    ensures { result ≡ named_in members.now }
{
    match members.get("resourceVersion") {
        Some(Tree::Text(text)) if !text.as_str().is_empty() => stored_number(text.as_str()),
        _ => Err(RequestError::BadField),
    }
}

fn stored_number(text: &str) -> Result<u64, RequestError>
    ensures { result ≡ stored_number text.now }
{
    let number = version_number(text);
    // 0 says that the text is none of a resource version.
    if number == 0 {
        return Err(RequestError::BadField);
    }
    Ok(number)
}

fn deletion_in(alloc: Global, members: &Members) -> Result<Request, RequestError>
    ensures { Answers result (deletion_in members.now) }
{
    let key = read_key(alloc, members)?;
    let uid = text_field(members, "uid")?;
    let version = text_field(members, "resourceVersion")?;
    let at = text_field(members, "at")?;
    Ok(Request::Delete {
        key,
        uid,
        version,
        at,
    })
}

/// The text of a member, if there is one that is not empty.
fn text_field(members: &Members, name: &str) -> Result<Option<Text>, RequestError>
    ensures { Answers result (field_text (get_member name.now members.now)) }
{
    match members.get(name) {
        None | Some(Tree::Null) => Ok(None),
        Some(Tree::Text(text)) if text.as_str().is_empty() => Ok(None),
        Some(Tree::Text(text)) => Ok(Some(text.clone()?)),
        Some(_) => Err(RequestError::BadField),
    }
}

/// The draft that the member `object` is.
fn draft_in(alloc: Global, members: Members) -> Result<Draft, ReadError>
    ensures { Gives (λ draft. draft) result (object_draft (get_member (codes "object") members)) }
{
    match members.take("object")? {
        Some(tree) => read_draft(alloc, tree),
        None => Err(ReadError::NoKind),
    }
}
