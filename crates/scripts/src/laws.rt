//! The laws of the requests that are printed.
ghost use Rattle.std.specs.Prelude.{◌≡◌, Ok};
ghost use Rattle.serde_json.specs.Data.{Data};
ghost use Rattle.trees.specs.Canonical.{IsCanonical};
ghost use Rattle.objects.specs.declared.object.Draft.{Draft};
ghost use Rattle.objects.specs.Text.{printed};
ghost use Rattle.requests.specs.declared.request.Request.{Request};
ghost use Rattle.plain.specs.Requests.{request_in};
ghost use Rattle.scripts.specs.RequestLine.{IsOfItsObject, IsReadable, IsReadableDraft, printed_draft, request_data};

/// A printed request reads back as itself, as a request line of `serve` and in a script, if keys, namespaces and
/// objects keep their rules, texts that are given are not empty, numbers are those of resource versions, and those of a
/// draft's object are the ones that the draft's texts say, whatever these are. So does each request that a value gives
/// whose keys ascend and whose numbers read back. And so does a draft with its object's own texts, which is printed as
/// that object is.
pub fn requests_read_back()
    ensures back { (request : Request) → IsReadable request → request_in (request_data request) ≡ Ok request }
    ensures read { (value : Data) (request : Request) → IsCanonical value → request_in value ≡ Ok request → IsReadable request }
    ensures own { (draft : Draft) → IsOfItsObject draft → IsReadableDraft draft × (printed_draft draft ≡ printed draft.object) }
{}
