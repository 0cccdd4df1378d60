// Texts of objects as a write leaves them.
ghost use Rattle.std.specs.Prelude.{◌≡◌, codes, IfOk, IfSome, option_map};
ghost use Rattle.trees.specs.Tree.{data_of};
ghost use Rattle.objects.specs.Rewrites.{at_version, with_status};
ghost use Rattle.objects.specs.Status.{member_of, same_found};

use crate::meta::Meta;
use crate::object::Object;
use crate::printed::{IndexedText, Printed, Printer};
use crate::splice::{ends_so, spliced, status_end, write_end};
use std::alloc::Global;
use trees::{Memory, Tree, TreeReader};

/// Room for the end of a text, from its status on, which is enough for most.
const END_ROOM: usize = 256;

impl Printed {
    /// The object at another resource version. Its text is copied, and not read, if the object has a resource version
    /// and no member after its status.
    pub fn at_version(
        &self,
        reader: &mut TreeReader,
        printer: &mut Printer,
        revision: u64,
    ) -> Result<Printed, Memory>
        ensures { IfOk result (λ printed. printed ≡ at_version self.now revision) }
    {
        if let Some(printed) = self.spliced_version(printer, revision)? {
            return Ok(printed);
        }
        let object = at_version(self.object(reader)?, revision);
        printer.print(&object)
    }

    /// The object with that status or without one, at another resource version. Its text is copied, and not read, if
    /// the object has a resource version and no member after its status.
    pub fn with_status(
        &self,
        reader: &mut TreeReader,
        printer: &mut Printer,
        status: Option<Tree>,
        revision: u64,
    ) -> Result<Printed, Memory>
        ensures { IfOk result (λ printed. printed ≡ at_version (with_status (option_map data_of status) self.now) revision) }
    {
        let Ok(found) = self.spliced_status(printer, status.as_ref(), revision) else {
            drop(status);
            return Err(Memory);
        };
        if let Some(printed) = found {
            drop(status);
            return Ok(printed);
        }
        let Ok(object) = self.object(reader) else {
            drop(status);
            return Err(Memory);
        };
        let object = at_version(object.with_status(status)?, revision);
        printer.print(&object)
    }

    /// The same, if the text has seams.
    fn spliced_status(
        &self,
        printer: &mut Printer,
        status: Option<&Tree>,
        revision: u64,
    ) -> Result<Option<Printed>, Memory>
        ensures { IfOk result (λ found. IfSome found (λ printed. printed
            ≡ at_version (with_status (option_map (λ t. data_of t.now) status.entry) self.now) revision)) }
    {
        let indexed = self.indexed();
        let end = write_end(status, Vec::with_capacity(alloc_of(indexed), END_ROOM)?)?;
        let spliced = spliced(indexed, printer, &end, revision)?;
        match spliced {
            Some(new) => Ok(Some(Printed::of_indexed(alloc_of(indexed), new)?)),
            None => Ok(None),
        }
    }

    /// The same with the status that the object has, if the text has seams.
    fn spliced_version(
        &self,
        printer: &mut Printer,
        revision: u64,
    ) -> Result<Option<Printed>, Memory>
        ensures { IfOk result (λ found. IfSome found (λ printed. printed ≡ at_version self.now revision)) }
    {
        let indexed = self.indexed();
        let spliced = spliced(indexed, printer, status_end(indexed), revision)?;
        match spliced {
            Some(new) => Ok(Some(Printed::of_indexed(alloc_of(indexed), new)?)),
            None => Ok(None),
        }
    }

    /// Whether the object has that status, or none. Its text is compared, and not read, if the object has a resource
    /// version and no member after its status.
    pub fn has_status(&self, reader: &mut TreeReader, status: Option<&Tree>) -> Result<bool, Memory>
        ensures { IfOk result (λ same. same ≡ same_found (member_of (codes "status") self.now.body) (option_map (λ t. data_of t.now) status.entry)) }
    {
        if let Some(same) = self.ends_in(status)? {
            return Ok(same);
        }
        let object = self.object(reader)?;
        Ok(same_found(object.member("status"), status))
    }

    /// The same, if the text has seams.
    fn ends_in(&self, status: Option<&Tree>) -> Result<Option<bool>, Memory>
        ensures { IfOk result (λ found. IfSome found (λ same. same
            ≡ same_found (member_of (codes "status") self.now.body) (option_map (λ t. data_of t.now) status.entry))) }
    {
        let indexed = self.indexed();
        let end = write_end(status, Vec::with_capacity(alloc_of(indexed), END_ROOM)?)?;
        Ok(ends_so(indexed, &end))
    }
}

pub(crate) fn alloc_of(indexed: &IndexedText) -> Global {
    *indexed.text.allocator()
}

pub(crate) fn at_version(object: Object, revision: u64) -> Object
    ensures { result ≡ at_version object revision }
{
    let Object { key, meta, body } = object;
    let Meta {
        uid,
        revision: _,
        generation,
        deletion,
    } = meta;
    Object {
        key,
        meta: Meta {
            uid,
            revision,
            generation,
            deletion,
        },
        body,
    }
}

/// Whether both are the same JSON value, or both are missing.
pub fn same_found(left: Option<&Tree>, right: Option<&Tree>) -> bool
    ensures { result ≡ same_found (option_map (λ t. data_of t.now) left.entry) (option_map (λ t. data_of t.now) right.entry) }
{
    match left {
        Some(left) => match right {
            Some(right) => left.is_same(right),
            None => false,
        },
        None => right.is_none(),
    }
}
