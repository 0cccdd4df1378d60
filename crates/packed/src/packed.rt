ghost use Rattle.std.specs.Prelude.{◌≡◌, ◌≤◌, ◌<◌, ◌+◌, ◌*◌, ◌/◌, ◌++◌, length, IfOk, OnOk, string_bytes};
ghost use Rattle.packed.specs.Expanded.{expanded};
ghost use Rattle.objects.specs.Text.{text};

use crate::delta::Delta;
use crate::difference::write_expanded;
use objects::{Header, Memory, Object, Printed, Printer, TreeReader};
use std::alloc::AllocError;
use std::marker::Model;
use std::sync::Arc;

/// An object as the difference of its text from another text, which a clause sees as the object. What it keeps is in
/// proportion to the text. The text, the printed object and the object are restored from it at any length and depth.
#[derive(Drop)]
pub struct Packed {
    pub(crate) base: Arc<String>,
    pub(crate) delta: Delta,
    pub(crate) header: Header,
}

impl Model for Packed {
    ghost use Rattle.std.specs.Prelude.{string_bytes};
    ghost use Rattle.packed.specs.Expanded.{expanded};
    ghost use Rattle.objects.specs.Object.{ObjectParts, object_coded};
    ghost use Rattle.objects.specs.PrintedText.{object_of_text};
    ghost use Rattle.packed.specs.Kept.{IsKept};

    ghost Value = { ObjectParts };

    ghost coded = { object_coded };

    ghost view = { λ p. object_of_text (expanded (string_bytes p.base.value) p.delta) };

    ghost invariant = { λ p. IsKept (string_bytes p.base.value) p.delta p.header };
}

impl Packed {
    /// The object, whose text is what the delta encodes.
    pub(crate) fn of(base: Arc<String>, delta: Delta, object: &Printed) -> Packed
        requires encoded { expanded (string_bytes base.value) delta ≡ text object.now }
        requires base { length (string_bytes base.value) ≤ 4 * length (text object.now) }
        requires delta { length delta ≤ length (text object.now) / 4 + 16 }
        ensures { result ≡ object.now }
    {
        let (_, header) = object.parts();
        Packed {
            base,
            delta,
            header,
        }
    }

    /// What is kept of the text: the base, and the delta that encodes the text over it. The base is at most four times as long
    /// as the text, and the delta takes at most a quarter of its bytes and 16 more.
    pub fn parts(&self) -> (&str, &[u8])
        ensures encoded { expanded result.0.now result.1.now ≡ text self.now }
        ensures base { length result.0.now ≤ 4 * length (text self.now) }
        ensures delta { length result.1.now ≤ length (text self.now) / 4 + 16 }
    {
        (self.base.as_str(), self.delta.as_slice())
    }

    /// How many have the base in common: packed objects, and the packer while it is the base of a set. At least one
    /// does.
    pub fn sharers(&self) -> usize
        ensures { 0 < result }
    {
        Arc::strong_count(&self.base)
    }

    /// Appends the text of the object.
    pub fn write_text(&self, out: &mut Vec<u8>) -> Result<(), AllocError>
        ensures { OnOk result (out.new.items ≡ out.old.items ++ text self.now) }
    {
        write_expanded(self.base.as_bytes(), self.delta.as_slice(), out)
    }

    /// The object, printed.
    pub fn printed(&self, reader: &mut TreeReader, printer: &mut Printer) -> Result<Printed, Memory>
        ensures { IfOk result (λ printed. printed ≡ self.now) }
    {
        let mut bytes = printer.lent();
        self.write_text(&mut bytes)?;
        let alloc = *self.base.allocator();
        let printed = Printed::of_header(alloc, &bytes, self.header, reader, printer);
        printer.keep(bytes);
        printed
    }

    /// The object, read back from its text.
    pub fn object(&self, reader: &mut TreeReader, printer: &mut Printer) -> Result<Object, Memory>
        ensures { IfOk result (λ object. object ≡ self.now) }
    {
        self.printed(reader, printer)?.object(reader)
    }
}
