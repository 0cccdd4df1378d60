ghost use Rattle.std.specs.Prelude.{◌≡◌, ◌≢◌, [], None, Some, IfOk, IfSome};
ghost use Rattle.std.specs.Option.{IsSomeAnd};
ghost use Rattle.std.specs.Str.{IsUtf8};
ghost use Rattle.objects.specs.declared.object.Object.{Object as SpecObject};
ghost use Rattle.objects.specs.Seams.{HasSeamsAt, IsIndexedText, IsSpecAt};
ghost use Rattle.objects.specs.PrintedText.{IsTextOf, object_of_text};
ghost use Rattle.objects.specs.Text.{text};

use crate::fault::ReadError;
use crate::object::Object;
use crate::read::read_draft;
use crate::seams::{SeamedText, Seams, print_seamed};
use simdutf8::basic::from_utf8;
use std::alloc::{AllocError, Global};
use std::marker::Model;
use std::mem;
use std::sync::Arc;
use trees::{Memory, TreeReader};

/// An object as its text, which a clause sees as the object. A copy shares the text.
#[derive(Drop)]
pub struct Printed {
    indexed: Arc<IndexedText>,
}

/// A text of an object, and what is known of the object without reading the text. Code that puts a text together out of
/// parts of others makes one, and has to show that it says what is true of the object.
#[derive(Drop)]
pub struct IndexedText {
    pub text: String,
    pub uid: u64,
    pub revision: u64,
    /// The seams of the text, in bytes: before the resource version and before the status. The first is 0 if there are
    /// none.
    pub version: u32,
    pub status: u32,
    /// How many bytes of the spec end at the status, and the object's generation: 0 if other members are there too, if
    /// the object has a time of deletion, or if it is not known.
    pub spec: u32,
    pub generation: u32,
}

impl Model for Printed {
    ghost use Rattle.std.specs.Prelude.{string_bytes};
    ghost use Rattle.objects.specs.Seams.{IsIndexedText};
    ghost use Rattle.objects.specs.Object.{ObjectParts, object_coded};
    ghost use Rattle.objects.specs.PrintedText.{object_of_text};

    ghost Value = { ObjectParts };

    ghost coded = { object_coded };

    ghost view = { λ p. object_of_text (string_bytes p.indexed.value.text) };

    ghost invariant = { λ p. IsIndexedText (object_of_text (string_bytes p.indexed.value.text)) p.indexed.value };
}

impl Printed {
    /// The object, printed. The text takes no more memory than it needs.
    pub fn of(alloc: Global, object: &Object) -> Result<Printed, Memory>
        ensures { IfOk result (λ printed. printed ≡ object.now) }
    {
        Printer::new(alloc).print(object)
    }

    /// The object of an indexed text. The caller has to show that its text is that of an object, with its seams and
    /// numbers; then it is that object, printed.
    pub fn of_indexed(alloc: Global, indexed: IndexedText) -> Result<Printed, Memory>
        requires { (o : SpecObject) × IsIndexedText o indexed }
        ensures { (o : SpecObject) → IsIndexedText o indexed → IfOk result (λ printed. printed ≡ o) }
    {
        Ok(Printed {
            indexed: Arc::new(alloc, indexed)?,
        })
    }

    /// The text, with what is known of the object without reading it.
    pub fn indexed(&self) -> &IndexedText
        ensures { IsIndexedText self.now result.now }
    {
        &self.indexed
    }

    /// The text of the object.
    pub fn as_str(&self) -> &str
        ensures { result.now ≡ text self.now }
    {
        self.indexed.text.as_str()
    }

    /// The number of the object's `uid`.
    pub fn uid(&self) -> u64
        ensures { result ≡ self.now.meta.uid }
    {
        self.indexed.uid
    }

    /// The number of the object's `resourceVersion`.
    pub fn revision(&self) -> u64
        ensures { result ≡ self.now.meta.revision }
    {
        self.indexed.revision
    }

    /// The object, read back from its text. That works at any length and depth.
    pub fn object(&self, reader: &mut TreeReader) -> Result<Object, Memory>
        ensures { IfOk result (λ object. object ≡ self.now) }
    {
        object_in(
            *self.indexed.text.allocator(),
            self.indexed.text.as_str(),
            reader,
        )
    }
}

/// The object of a text that one was printed as, read back.
pub(crate) fn object_in(
    alloc: Global,
    text: &str,
    reader: &mut TreeReader,
) -> Result<Object, Memory>
    requires { IsTextOf (object_of_text text.now) text.now }
    ensures { IfOk result (λ object. object ≡ object_of_text text.now) }
{
    let tree = reader.read_back(text)?;
    match read_draft(alloc, tree) {
        Ok(draft) => Ok(draft.object),
        Err(ReadError::Memory) => Err(Memory),
        // No test refuses a text that an object was printed as.
        Err(_) => unreachable!(),
    }
}

impl Clone for Printed {
    ghost is_clone = { λ old new. new ≡ old };

    fn clone(&self) -> Result<Printed, AllocError> {
        Ok(Printed {
            indexed: Arc::try_clone(&self.indexed)?,
        })
    }
}

/// Prints objects one after another, in memory that it keeps from text to text: the longest text's length.
#[derive(Drop)]
pub struct Printer {
    alloc: Global,
    buffer: Vec<u8>,
    expects_same_spec: bool,
    ghost empty: { buffer.items ≡ [] },
}

impl Printer {
    /// A printer that has printed nothing.
    pub fn new(alloc: Global) -> Printer {
        Printer {
            alloc,
            buffer: Vec::new(alloc),
            expects_same_spec: true,
        }
    }

    /// The object, printed. The text takes no more memory than it needs.
    pub fn print(&mut self, object: &Object) -> Result<Printed, Memory>
        ensures { IfOk result (λ printed. printed ≡ object.now) }
    {
        let SeamedText { bytes, seams } = print_seamed(object, self.lent())?;
        let printed = printed_as(self.alloc, object, &bytes, seams);
        self.keep(bytes);
        printed
    }

    /// The memory for a text, with nothing in it.
    pub fn lent(&mut self) -> Vec<u8>
        ensures { result.items ≡ [] }
    {
        mem::replace(&mut self.buffer, Vec::new(self.alloc))
    }

    /// Takes the memory for a text back.
    pub fn keep(&mut self, mut bytes: Vec<u8>) {
        bytes.clear();
        self.buffer = bytes;
    }

    /// Whether the next update is expected to leave the spec as it is, because the last one did.
    pub(crate) fn expects_same_spec(&self) -> bool {
        self.expects_same_spec
    }

    pub(crate) fn expect_same_spec(&mut self, is_same: bool) {
        self.expects_same_spec = is_same;
    }
}

// The object, whose text these bytes are, in no more memory than they need.
fn printed_as(
    alloc: Global,
    object: &Object,
    bytes: &[u8],
    seams: Option<Seams>,
) -> Result<Printed, Memory>
    requires text { IsTextOf object.now bytes.now }
    requires utf8 { IsUtf8 bytes.now }
    requires seams { IfSome seams (λ seams. HasSeamsAt object.now seams.version seams.status) }
    requires spec { IfSome seams (λ seams. IfSome seams.spec (IsSpecAt object.now seams.version seams.status)) }
    ensures { IfOk result (λ printed. printed ≡ object.now) }
{
    match from_utf8(bytes) {
        Ok(text) => {
            let (uid, revision) = numbers_of(object);
            let (version, status) = short_offsets(seams);
            let (spec, generation) = short_spec(object, seams);
            let text = String::from_str(alloc, text)?;
            Printed::of_indexed(
                alloc,
                IndexedText {
                    text,
                    uid,
                    revision,
                    version,
                    status,
                    spec,
                    generation,
                },
            )
        }
        Err(_) => unreachable!(),
    }
}

// The numbers of the UID and of the resource version.
fn numbers_of(object: &Object) -> (u64, u64)
    ensures { result ≡ (object.now.meta.uid, object.now.meta.revision) }
{
    (object.meta.uid, object.meta.revision)
}

// The seams in fewer bits, or 0 and 0 if there are none or they do not fit.
pub(crate) fn short_offsets(seams: Option<Seams>) -> (u32, u32)
    ensures { result.0 ≢ 0 → IsSomeAnd seams (λ seams. (result.0 ≡ seams.version) × (result.1 ≡ seams.status)) }
{
    let Some(seams) = seams else {
        return (0, 0);
    };
    let Ok(version) = u32::try_from(seams.version) else {
        return (0, 0);
    };
    let Ok(status) = u32::try_from(seams.status) else {
        return (0, 0);
    };
    (version, status)
}

// How many bytes the spec takes, and the generation, or 0 and 0 if they are not known, do not fit, or the object has a
// time of deletion.
fn short_spec(object: &Object, seams: Option<Seams>) -> (u32, u32)
    ensures { result.1 ≢ 0 → IsSomeAnd seams (λ seams. seams.spec ≡ Some result.0) × (result.1 ≡ object.now.meta.generation) × (object.now.meta.deletion ≡ None) }
{
    let meta = &object.meta;
    if meta.deletion.is_some() {
        return (0, 0);
    }
    let Some(seams) = seams else {
        return (0, 0);
    };
    let Some(size) = seams.spec else {
        return (0, 0);
    };
    let Ok(spec) = u32::try_from(size) else {
        return (0, 0);
    };
    match u32::try_from(meta.generation) {
        Ok(generation) => (spec, generation),
        Err(_) => (0, 0),
    }
}
