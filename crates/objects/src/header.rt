// What is kept of a printed object besides its text, when the text is kept in another form.
ghost use Rattle.std.specs.Prelude.{◌≡◌, ◌≢◌, IfOk, IfSome};
ghost use Rattle.objects.specs.Header.{IsHeader, SameNumbers};
ghost use Rattle.objects.specs.PrintedText.{object_of_text};
ghost use Rattle.objects.specs.Text.{text};

use crate::printed::{IndexedText, Printed, Printer, object_in};
use simdutf8::basic::from_utf8;
use std::alloc::Global;
use trees::{Memory, TreeReader};

/// What is known of a text without reading it, in fewer bits; all are 0 if one does not fit.
#[derive(Clone, Copy, Drop)]
pub struct Header {
    pub(crate) uid: u32,
    pub(crate) revision: u32,
    pub(crate) version: u16,
    pub(crate) status: u16,
    pub(crate) spec: u16,
    pub(crate) generation: u16,
}

impl Printed {
    /// The text, and what has to be kept with it so that the object is known from both.
    pub fn parts(&self) -> (&[u8], Header)
        ensures text { result.0.now ≡ text self.now }
        ensures header { IsHeader result.0.now result.1 }
        ensures object { object_of_text result.0.now ≡ self.now }
    {
        let indexed = self.indexed();
        (indexed.text.as_str().as_bytes(), header_of(indexed))
    }

    /// The object of a text and its header. It is not read back unless the numbers of the header are 0.
    pub fn of_header(
        alloc: Global,
        bytes: &[u8],
        header: Header,
        reader: &mut TreeReader,
        printer: &mut Printer,
    ) -> Result<Printed, Memory>
        requires { IsHeader bytes.now header }
        ensures { IfOk result (λ printed. printed ≡ object_of_text bytes.now) }
    {
        let Ok(text) = from_utf8(bytes) else {
            unreachable!();
        };
        // 0 says that not all was known of the text, or did not fit, so it is read.
        if header.version == 0 {
            let object = object_in(alloc, text, reader)?;
            return printer.print(&object);
        }
        Printed::of_indexed(
            alloc,
            IndexedText {
                text: String::from_str(alloc, text)?,
                uid: u64::from(header.uid),
                revision: u64::from(header.revision),
                version: u32::from(header.version),
                status: u32::from(header.status),
                spec: u32::from(header.spec),
                generation: u32::from(header.generation),
            },
        )
    }
}

/// The numbers of an indexed text in fewer bits, or 0 if they do not fit.
fn header_of(indexed: &IndexedText) -> Header
    ensures { result.version ≢ 0 → SameNumbers result indexed.now }
{
    match short_header(indexed) {
        Some(header) => header,
        None => Header {
            uid: 0,
            revision: 0,
            version: 0,
            status: 0,
            spec: 0,
            generation: 0,
        },
    }
}

/// The numbers of an indexed text in fewer bits, if they fit.
fn short_header(indexed: &IndexedText) -> Option<Header>
    ensures { IfSome result (λ header. SameNumbers header indexed.now) }
{
    Some(Header {
        uid: u32::try_from(indexed.uid).ok()?,
        revision: u32::try_from(indexed.revision).ok()?,
        version: u16::try_from(indexed.version).ok()?,
        status: u16::try_from(indexed.status).ok()?,
        spec: u16::try_from(indexed.spec).ok()?,
        generation: u16::try_from(indexed.generation).ok()?,
    })
}
