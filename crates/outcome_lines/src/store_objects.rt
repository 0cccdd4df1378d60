// The objects of a store, as items of a JSON list.
ghost use Rattle.std.specs.Prelude.{◌≡◌, ◌++◌, List, OnOk};
ghost use Rattle.json.specs.Tree.{items_tokens};
ghost use Rattle.objects.specs.declared.object.Object.{Object as SpecObject};
ghost use Rattle.outcome_lines.specs.Stores.{listed_in, objects_in, store_items};
ghost use Rattle.serde_json.specs.Written.{items_outline};

use json::Writer;
use objects::{Object, write_object};
use plain::Reply;
use std::alloc::AllocError;

/// Writes the objects that the replies list, one after another, with the closing bracket.
pub(crate) fn write_objects(shown: &[Reply], out: &mut Writer) -> Result<(), AllocError>
    ensures tokens { OnOk result (out.new.tokens ≡ out.old.tokens ++ items_tokens (items_outline (store_items (objects_in shown.now)))) }
    ensures before { out.new.before ≡ out.old.before }
{
    for reply in shown {
        write_listed(listed_in(reply), out)?;
    }
    out.end_array()
}

pub(crate) fn listed_in(reply: &Reply) -> &[Object]
    ensures { result.now ≡ listed_in reply.now }
{
    match reply {
        Reply::Listed {
            objects,
            revision: _,
        } => objects.as_slice(),
        _ => &[],
    }
}

/// Writes the objects before others.
fn write_listed(objects: &[Object], out: &mut Writer) -> Result<(), AllocError>
    ensures tokens { OnOk result ((others : List SpecObject)
        → out.new.tokens ++ items_tokens (items_outline (store_items others))
        ≡ out.old.tokens ++ items_tokens (items_outline (store_items (objects.now ++ others)))) }
    ensures before { out.new.before ≡ out.old.before }
{
    for object in objects {
        write_object(object, out)?;
    }
    Ok(())
}
