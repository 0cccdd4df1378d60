// Members that the store sets, as they are written.
ghost use Rattle.std.specs.Prelude.{◌≡◌, ◌++◌, ◌∷◌, [], codes, OnOk, Some, option_map};
ghost use Rattle.std.specs.Option.{option_copied};
ghost use Rattle.serde_json.specs.Data.{string, number as number_data, unsigned};
ghost use Rattle.objects.specs.Text.{unless_zero};
ghost use Rattle.objects.specs.Uid.{twelve_digits, uid_prefix};
ghost use Rattle.compact_objects.specs.Merging.{held_data, held_key, some_text, uid_data};

use crate::plain_text::PlainText;
use json::Writer;
use std::alloc::{AllocError, Global};
use std::mem;
use trees::Text;

/// A member of the metadata that the key or the meta holds, with its value. A number that is 0 stands for none.
#[derive(Clone, Copy, Drop)]
pub(crate) enum HeldMember<'a> {
    DeletionTimestamp(Option<&'a str>),
    Generation(u64),
    Name(PlainText<'a>),
    Namespace(PlainText<'a>),
    Uid(u64),
}

impl<'a> HeldMember<'a> {
    /// The key of the member.
    #[inline(always)]
    pub(crate) fn key(self) -> &'static str
        ensures { result.now ≡ held_key self.entry }
    {
        match self {
            HeldMember::DeletionTimestamp(_) => "deletionTimestamp",
            HeldMember::Generation(_) => "generation",
            HeldMember::Name(_) => "name",
            HeldMember::Namespace(_) => "namespace",
            HeldMember::Uid(_) => "uid",
        }
    }
}

/// The text, if there is one.
pub(crate) fn held_text<'a>(text: Option<&'a Text>) -> Option<&'a str>
    ensures { option_map (λ s. s.now) result ≡ option_copied text.entry }
{
    match text {
        Some(text) => Some(text.as_str()),
        None => None,
    }
}

/// Writes the held member with a comma before it, if there is one. Inline, since each caller knows which member it is.
#[inline(always)]
pub(crate) fn write_held(
    alloc: Global,
    held: HeldMember<'_>,
    out: &mut Vec<u8>,
) -> Result<(), AllocError>
    ensures { OnOk result (out.new.items ≡ out.old.items ++ some_text (held_key held.entry) (held_data held.entry)) }
{
    match held {
        HeldMember::DeletionTimestamp(time) => write_deletion_timestamp(alloc, time, out),
        HeldMember::Generation(number) => write_generation(number, out),
        HeldMember::Name(name) => write_plain(b",\"name\":\"", name, out),
        HeldMember::Namespace(namespace) => write_plain(b",\"namespace\":\"", namespace, out),
        HeldMember::Uid(number) => write_uid(number, out),
    }
}

// Writes the time of deletion, if there is one.
fn write_deletion_timestamp(
    alloc: Global,
    time: Option<&str>,
    out: &mut Vec<u8>,
) -> Result<(), AllocError>
    ensures { OnOk result (out.new.items ≡ out.old.items ++ some_text (codes "deletionTimestamp") (option_map string (option_map (λ s. s.now) time.entry))) }
{
    match time {
        Some(time) => write_text(alloc, "deletionTimestamp", time, out),
        None => Ok(()),
    }
}

// Writes a member whose value is a text of which no byte is escaped, given all that comes before that text.
#[inline(always)]
fn write_plain(head: &[u8], plain: PlainText<'_>, out: &mut Vec<u8>) -> Result<(), AllocError>
    ensures { OnOk result (out.new.items ≡ out.old.items ++ (head.now ++ (plain.entry.text.now ++ 34 ∷ []))) }
{
    out.extend_from_slice(head)?;
    out.extend_from_slice(plain.text.as_bytes())?;
    out.push(b'"')?;
    Ok(())
}

// Writes a member whose value is a text.
fn write_text(alloc: Global, key: &str, text: &str, out: &mut Vec<u8>) -> Result<(), AllocError>
    ensures { OnOk result (out.new.items ≡ out.old.items ++ some_text key.now (Some (string text.now))) }
{
    out.push(b',')?;
    let mut writer = Writer::new(mem::replace(out, Vec::new(alloc)));
    writer.key(key)?;
    writer.string(text)?;
    *out = writer.into_inner();
    Ok(())
}

// Writes the generation, unless it is 0.
fn write_generation(number: u64, out: &mut Vec<u8>) -> Result<(), AllocError>
    ensures { OnOk result (out.new.items ≡ out.old.items ++ some_text (codes "generation") (unless_zero number (number_data (unsigned number)))) }
{
    if number == 0 {
        return Ok(());
    }
    let mut buffer = itoa::Buffer::new();
    out.extend_from_slice(b",\"generation\":")?;
    out.extend_from_slice(buffer.format(number).as_bytes())
}

// Writes the UID of that number, unless it is 0, without allocating its text.
fn write_uid(number: u64, out: &mut Vec<u8>) -> Result<(), AllocError>
    ensures { OnOk result (out.new.items ≡ out.old.items ++ some_text (codes "uid") (uid_data number)) }
{
    if number == 0 {
        return Ok(());
    }
    out.extend_from_slice(uid_member(number).as_slice())
}

// The member of a UID that is not 0.
fn uid_member(number: u64) -> [u8; 45]
    ensures { result ≡ codes ",\"uid\":\"" ++ ((uid_prefix ++ twelve_digits number) ++ 34 ∷ []) }
{
    let mut text = *b",\"uid\":\"00000000-0000-4000-8000-000000000000\"";
    // It can't fail: six bytes make twelve digits, and there is room for twelve.
    let _ = hex::encode_to_slice(&number.to_be_bytes()[2..], &mut text[32..44]);
    text
}
