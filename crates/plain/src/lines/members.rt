//! Members of a JSON object that is being written, and the end of its line.
ghost use Rattle.std.specs.Prelude.{◌≡◌, ◌++◌, ◌∷◌, [], decimal, IfOk, OnOk};
ghost use Rattle.json.specs.Print.{print};
ghost use Rattle.json.specs.Token.{key as key_token, number as number_token, string as string_token};
ghost use Rattle.json.specs.Tree.{json_tokens};
ghost use Rattle.serde_json.specs.Written.{outline};
ghost use Rattle.objects.specs.Text.{printed};

use json::Writer;
use objects::{Object, write_object};
use std::alloc::AllocError;

/// Writes a member whose value is a text.
pub fn write_text_member(name: &str, text: &str, out: &mut Writer) -> Result<(), AllocError>
    ensures tokens { OnOk result (out.new.tokens ≡ out.old.tokens ++ key_token name.now ∷ string_token text.now ∷ []) }
    ensures before { out.new.before ≡ out.old.before }
{
    out.key(name)?;
    out.string(text)
}

/// Writes a member whose value is a whole number.
pub fn write_integer_member(name: &str, number: u64, out: &mut Writer) -> Result<(), AllocError>
    ensures tokens { OnOk result (out.new.tokens ≡ out.old.tokens ++ key_token name.now ∷ number_token (decimal number) ∷ []) }
    ensures before { out.new.before ≡ out.old.before }
{
    out.key(name)?;
    out.u64(number)
}

/// Writes a member whose value is an object of the store.
pub fn write_object_member(name: &str, object: &Object, out: &mut Writer) -> Result<(), AllocError>
    ensures tokens { OnOk result (out.new.tokens ≡ out.old.tokens ++ key_token name.now ∷ json_tokens (outline (printed object.now))) }
    ensures before { out.new.before ≡ out.old.before }
{
    out.key(name)?;
    write_object(object, out)
}

/// Ends the line: what was written, and a line feed.
pub fn end_line(writer: Writer) -> Result<Vec<u8>, AllocError>
    ensures { IfOk result (λ line. line.items ≡ writer.before ++ (print writer.tokens ++ 10 ∷ [])) }
{
    let mut line = writer.into_inner();
    line.push(b'\n')?;
    Ok(line)
}
