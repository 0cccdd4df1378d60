// The store that a race leaves, as a line of JSON.
ghost use Rattle.std.specs.Prelude.{◌≡◌, ◌++◌, ◌∷◌, [], codes, IfOk, OnOk};
ghost use Rattle.json.specs.Token.{key as key_token};
ghost use Rattle.json.specs.Tree.{json_tokens};
ghost use Rattle.serde_json.specs.Data.{array};
ghost use Rattle.serde_json.specs.Written.{compact_text, outline};
ghost use Rattle.outcome_lines.specs.Stores.{objects_in, revision_in, revision_of, store_data, store_items};

use crate::store_objects::write_objects;
use json::Writer;
use plain::{Reply, end_line, write_integer_member};
use std::alloc::AllocError;

/// Appends the line of the store of which these lists were given.
pub(crate) fn put_store(shown: &[Reply], out: Vec<u8>) -> Result<Vec<u8>, AllocError>
    ensures { IfOk result (λ text. text.items ≡ out.items ++ (compact_text (store_data shown.now) ++ 10 ∷ [])) }
{
    let mut writer = Writer::new(out);
    write_store(shown, &mut writer)?;
    end_line(writer)
}

fn write_store(shown: &[Reply], out: &mut Writer) -> Result<(), AllocError>
    ensures tokens { OnOk result (out.new.tokens ≡ out.old.tokens ++ json_tokens (outline (store_data shown.now))) }
    ensures before { out.new.before ≡ out.old.before }
{
    out.begin_object()?;
    write_integer_member("revision", revision_in(shown), out)?;
    write_objects_member(shown, out)?;
    out.end_object()
}

pub(crate) fn revision_in(shown: &[Reply]) -> u64
    ensures { result ≡ revision_in shown.now }
{
    match shown.first() {
        Some(reply) => revision_of(reply),
        None => 0,
    }
}

fn revision_of(reply: &Reply) -> u64
    ensures { result ≡ revision_of reply.now }
{
    match reply {
        Reply::Listed {
            objects: _,
            revision,
        } => *revision,
        _ => 0,
    }
}

pub(crate) fn write_objects_member(shown: &[Reply], out: &mut Writer) -> Result<(), AllocError>
    ensures tokens { OnOk result (out.new.tokens ≡ out.old.tokens ++ key_token (codes "store")
        ∷ json_tokens (outline (array (store_items (objects_in shown.now))))) }
    ensures before { out.new.before ≡ out.old.before }
{
    out.key("store")?;
    out.begin_array()?;
    write_objects(shown, out)
}
