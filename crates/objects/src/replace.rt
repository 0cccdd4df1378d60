// What an update makes of an object.
ghost use Rattle.std.specs.Prelude.{◌≡◌, ◌++◌, ◌<◌, ◌^◌, ℕ, List, None, Some, codes, option_map, is_some, not, string_bytes, true, false, IfOk, IfSome};
ghost use Rattle.trees.specs.Tree.{data_of};
ghost use Rattle.objects.specs.declared.object.Object.{Object as SpecObject};
ghost use Rattle.objects.specs.Seams.{AreParts, IsOpen, IsIndexedText, spec_text};
ghost use Rattle.objects.specs.Rewrites.{at_version, generation_after, meta_after, meta_by, replaced};
ghost use Rattle.objects.specs.Status.{member_of, same_found};
ghost use Rattle.trees.specs.Same.{same_data};

use crate::meta::Meta;
use crate::object::Object;
use crate::printed::{IndexedText, Printed, Printer};
use crate::rewrite::{alloc_of, at_version, same_found};
use crate::splice::{spliced, status_end};
use std::alloc::AllocError;
use trees::{Memory, Tree, TreeReader};

impl Object {
    /// What an update with this object makes of one that has a status: its UID, resource version, deletion and status stay,
    /// the generation rises with a change of `spec`, and all else is this object (Kubernetes `ObjectMeta`: generation). A
    /// `spec` that is the same is shared with the current object.
    pub fn replacing(self, current: &Object) -> Result<Object, AllocError>
        ensures { IfOk result (λ object. object ≡ replaced current.now self) }
    {
        let same_spec = same_found(current.member("spec"), self.member("spec"));
        let object = if same_spec {
            self.sharing_spec(current)?
        } else {
            self
        };
        match kept_of(current, same_spec) {
            Ok((meta, status)) => Ok(with_meta(object.with_status(status)?, meta)),
            Err(error) => {
                drop(object);
                Err(error)
            }
        }
    }

    /// The object with the current one's `spec`, which is the same, instead of its own.
    fn sharing_spec(self, current: &Object) -> Result<Object, AllocError>
        requires { same_found (member_of (codes "spec") current.now.body) (member_of (codes "spec") self.body) ≡ true }
        ensures { IfOk result (λ object. object ≡ self) }
    {
        let Some(spec) = current.member("spec") else {
            return Ok(self);
        };
        match spec.clone() {
            Ok(spec) => self.with_same_spec(spec),
            Err(error) => {
                drop(self);
                Err(error)
            }
        }
    }

    fn with_same_spec(self, spec: Tree) -> Result<Object, AllocError>
        requires { member_of (codes "spec") self.body ≡ Some (data_of spec) }
        ensures { IfOk result (λ object. object ≡ self) }
    {
        let Object { key, meta, body } = self;
        Ok(Object {
            key,
            meta,
            body: with_same(body, "spec", spec)?,
        })
    }

    /// The same of one whose kind has no status.
    pub fn replacing_all(self, current: &Object) -> Result<Object, AllocError>
        ensures { IfOk result (λ object. object ≡ record { key = self.key; meta = meta_after current.now self; body = self.body }) }
    {
        let same_spec = same_found(current.member("spec"), self.member("spec"));
        match meta_after(current, same_spec) {
            Ok(meta) => Ok(with_meta(self, meta)),
            Err(error) => {
                drop(self);
                Err(error)
            }
        }
    }
}

impl Printed {
    /// What an update with that object makes of this one, which has a status or may have one, at that resource version;
    /// None if the update leaves the body as it is. If the key is another, None says nothing. This one's text is not
    /// read back if its generation and the position of its spec are known, the position of the new text's spec is known
    /// too, and the two texts differ in more than the version.
    pub fn replaced(
        &self,
        reader: &mut TreeReader,
        printer: &mut Printer,
        object: Object,
        revision: u64,
    ) -> Result<Option<Printed>, Memory>
        ensures text { IfOk result (λ found. IfSome found (λ new. new ≡ at_version (replaced self.now object) revision)) }
        ensures same { self.now.key ≡ object.key → IfOk result (λ found. is_some found ≡ not (same_data self.now.body (replaced self.now object).body)) }
    {
        let mut object = object;
        match self.replaced_by_text(printer, &mut object, revision) {
            Ok(None) => self.replaced_by_tree(reader, printer, object, revision),
            Ok(Some(text)) => {
                drop(object);
                Ok(Some(text))
            }
            Err(error) => {
                drop(object);
                Err(error)
            }
        }
    }

    /// The same, over this one's text read back.
    fn replaced_by_tree(
        &self,
        reader: &mut TreeReader,
        printer: &mut Printer,
        object: Object,
        revision: u64,
    ) -> Result<Option<Printed>, Memory>
        ensures text { IfOk result (λ found. IfSome found (λ new. new ≡ at_version (replaced self.now object) revision)) }
        ensures same { IfOk result (λ found. is_some found ≡ not (same_data self.now.body (replaced self.now object).body)) }
    {
        let Ok(current) = self.object(reader) else {
            drop(object);
            return Err(Memory);
        };
        let replaced = replaced_unless_same(printer, &current, object, revision);
        drop(current);
        replaced
    }

    /// The text of what an update with that object makes of this one, at that resource version, if that can be found without
    /// reading this one's text back, and if it is surely another object. The object that is passed keeps its key and its body.
    fn replaced_by_text(
        &self,
        printer: &mut Printer,
        object: &mut Object,
        revision: u64,
    ) -> Result<Option<Printed>, Memory>
        ensures key { object.new.key ≡ object.old.key }
        ensures body { object.new.body ≡ object.old.body }
        ensures text { IfOk result (λ found. IfSome found (λ new. new ≡ at_version (replaced self.now object.old) revision)) }
        ensures differs { IfOk result (λ found. IfSome found (λ new. self.now.key ≡ object.old.key → same_data self.now.body (replaced self.now object.old).body ≡ false)) }
    {
        let indexed = self.indexed();
        // 0 says that the text has no seams, or that it is not known where its spec is and what its generation is.
        if indexed.version == 0 || indexed.generation == 0 {
            return Ok(None);
        }
        let Some(printed) = print_in_place(indexed, printer, object)? else {
            return Ok(None);
        };
        let spliced = spliced(printed.indexed(), printer, status_end(indexed), revision);
        drop(printed);
        let Some(new) = spliced? else {
            return Ok(None);
        };
        if may_be_same(indexed, &new) {
            drop(new);
            return Ok(None);
        }
        Ok(Some(Printed::of_indexed(alloc_of(indexed), new)?))
    }
}

/// Whether the new text begins and ends as the old one does around its resource version.
pub fn may_be_same(old: &IndexedText, new: &IndexedText) -> bool
    requires { AreParts (string_bytes old.now.text) old.now.revision old.now.version old.now.status }
    ensures { (parts : AreParts (string_bytes old.now.text) old.now.revision old.now.version old.now.status) (version : List ℕ)
        → string_bytes new.now.text ≡ parts.front ++ (version ++ (parts.middle ++ parts.rest)) → result ≡ true }
{
    let mut buffer = itoa::Buffer::new();
    let version = old.version as usize;
    // 2 for the quotes around the resource version.
    let behind = version + 2 + buffer.format(old.revision).len();
    let old = old.text.as_str().as_bytes();
    let new = new.text.as_str().as_bytes();
    new.starts_with(&old[..version]) && new.ends_with(&old[behind..])
}

/// What an update with the object makes of the current one, at that resource version. None if the body stays as it is.
fn replaced_unless_same(
    printer: &mut Printer,
    current: &Object,
    object: Object,
    revision: u64,
) -> Result<Option<Printed>, Memory>
    ensures text { IfOk result (λ found. IfSome found (λ new. new ≡ at_version (replaced current.now object) revision)) }
    ensures same { IfOk result (λ found. is_some found ≡ not (same_data current.now.body (replaced current.now object).body)) }
{
    let object = object.replacing(current)?;
    if current.body.is_same(&object.body) {
        drop(object);
        return Ok(None);
    }
    let object = at_version(object, revision);
    let text = printer.print(&object);
    drop(object);
    Ok(Some(text?))
}

/// The object as it is once it has replaced the indexed text's object, printed with its own status. None if the
/// position of the spec in the new text is not known.
fn print_in_place(
    indexed: &IndexedText,
    printer: &mut Printer,
    object: &mut Object,
) -> Result<Option<Printed>, Memory>
    requires { (o : SpecObject) × IsIndexedText o indexed.now × IsOpen o indexed.now }
    ensures key { object.new.key ≡ object.old.key }
    ensures body { object.new.body ≡ object.old.body }
    ensures text { (o : SpecObject) → IsIndexedText o indexed.now → IsOpen o indexed.now
        → IfOk result (λ found. IfSome found (λ printed. printed ≡ record { key = object.old.key; meta = meta_after o object.old; body = object.old.body })) }
{
    let generation = u64::from(indexed.generation);
    let expected = printer.expects_same_spec();
    put_meta(
        object,
        kept_meta(indexed, generation_after(generation, expected)),
    );
    let printed = printer.print(object)?;
    let Some(is_same) = has_same_spec(indexed, printed.indexed()) else {
        drop(printed);
        return Ok(None);
    };
    if is_same == expected {
        return Ok(Some(printed));
    }
    drop(printed);
    printer.expect_same_spec(is_same);
    put_meta(
        object,
        kept_meta(indexed, generation_after(generation, is_same)),
    );
    Ok(Some(printer.print(object)?))
}

/// Gives the object what the store knows of it.
fn put_meta(object: &mut Object, meta: Meta)
    ensures { object.new ≡ record { key = object.old.key; meta = meta; body = object.old.body } }
{
    object.meta = meta;
}

/// What stays of the meta of an indexed text's object, with that generation.
fn kept_meta(indexed: &IndexedText, generation: u64) -> Meta
    requires known { (o : SpecObject) × IsIndexedText o indexed.now × IsOpen o indexed.now }
    requires generation { generation < 2 ^ 63 }
    ensures { (o : SpecObject) → IsIndexedText o indexed.now → IsOpen o indexed.now
        → result ≡ record { uid = o.meta.uid; revision = o.meta.revision; generation = generation; deletion = o.meta.deletion } }
{
    Meta {
        uid: indexed.uid,
        revision: indexed.revision,
        generation,
        deletion: None,
    }
}

/// Whether both objects have the same spec. None if the position of the second one's spec is not known.
fn has_same_spec(left: &IndexedText, right: &IndexedText) -> Option<bool>
    requires left { (o : SpecObject) × IsIndexedText o left.now × IsOpen o left.now }
    requires right { (p : SpecObject) × IsIndexedText p right.now }
    ensures { (o : SpecObject) → (p : SpecObject) → IsIndexedText o left.now → IsOpen o left.now → IsIndexedText p right.now
        → IfSome result (λ same. same ≡ same_found (member_of (codes "spec") o.body) (member_of (codes "spec") p.body)) }
{
    if right.version == 0 || right.generation == 0 {
        return None;
    }
    Some(spec_bytes(left) == spec_bytes(right))
}

/// The bytes of the spec, with the comma before it.
pub fn spec_bytes(indexed: &IndexedText) -> &[u8]
    requires { (o : SpecObject) × IsIndexedText o indexed.now × IsOpen o indexed.now }
    ensures { (o : SpecObject) → IsIndexedText o indexed.now → IsOpen o indexed.now → result.now ≡ spec_text (member_of (codes "spec") o.body) }
{
    let status = indexed.status as usize;
    &indexed.text.as_str().as_bytes()[status - indexed.spec as usize..status]
}

/// The body with that value for the member of that key, which is the same.
fn with_same(body: Tree, key: &str, value: Tree) -> Result<Tree, AllocError>
    requires { member_of key.now (data_of body) ≡ Some (data_of value) }
    ensures { IfOk result (λ changed. data_of changed ≡ data_of body) }
{
    match body {
        Tree::Map(members) => {
            let _ = members.entries();
            Ok(Tree::Map(members.with(key, Some(value))?))
        }
        other => {
            drop(value);
            Ok(other)
        }
    }
}

/// What stays of the current object once an update has replaced it by another, whose spec is the same or not: what the
/// store knows of it, and its status.
fn kept_of(current: &Object, same_spec: bool) -> Result<(Meta, Option<Tree>), AllocError>
    ensures meta { IfOk result (λ kept. kept.0 ≡ meta_by current.now same_spec) }
    ensures status { IfOk result (λ kept. option_map data_of kept.1 ≡ member_of (codes "status") current.now.body) }
{
    let meta = meta_after(current, same_spec)?;
    Ok((meta, current.status()?))
}

/// What the store knows of an object once an update has replaced it by another, whose spec is the same or not.
fn meta_after(current: &Object, same_spec: bool) -> Result<Meta, AllocError>
    ensures { IfOk result (λ meta. meta ≡ meta_by current.now same_spec) }
{
    Ok(Meta {
        uid: current.meta.uid,
        revision: current.meta.revision,
        generation: generation_after(current.meta.generation, same_spec),
        deletion: current.meta.deletion.clone()?,
    })
}

/// The generation after an update, which rises with each change of `spec` up to its limit (Kubernetes `ObjectMeta`).
pub fn generation_after(generation: u64, same_spec: bool) -> u64
    requires { generation < 2 ^ 63 }
    ensures value { result ≡ generation_after generation same_spec }
    ensures small { result < 2 ^ 63 }
{
    if same_spec || generation + 1 >= 1 << 63 {
        generation
    } else {
        generation + 1
    }
}

fn with_meta(object: Object, meta: Meta) -> Object
    ensures { result ≡ record { key = object.key; meta = meta; body = object.body } }
{
    let Object {
        key,
        meta: old,
        body,
    } = object;
    drop(old);
    Object { key, meta, body }
}
