ghost use Rattle.std.specs.Prelude.{◌≡◌, ℕ, List, Some, ◌<◌, ◌^◌, ◌++◌, IfOk, IfSome, string_bytes, bytes_eq, decimal, unwrap_or, length, ◌≤◌};
ghost use Rattle.hex.specs.Hex.{hex_digit_value};
ghost use Rattle.objects.specs.Uid.{uid_text, uid_number, version_number, uid_prefix, twelve_digits, hex_value};

use std::alloc::Global;
use trees::Memory;

const PREFIX: &str = "00000000-0000-4000-8000-";

/// The text of a UID: `00000000-0000-4000-8000-` and twelve lower-case hexadecimal digits of the number; of 0, which
/// stands for none, the empty text.
#[tactic(auto, unfolding(crate::specs::Uid::uid_text))]
pub fn uid_text(alloc: Global, number: u64) -> Result<String, Memory>
    requires { number < 2 ^ 48 }
    ensures { IfOk result (λ text. string_bytes text ≡ uid_text number) }
{
    if number == 0 {
        return Ok(String::new(alloc));
    }
    let mut text = String::from_str(alloc, PREFIX)?;
    let digits = hex::encode(alloc, &number.to_be_bytes()[2..])?;
    text.push_str(digits.as_str())?;
    Ok(text)
}

/// Whether the text is that of the UID.
#[tactic(auto, unfolding(crate::specs::Uid::uid_text))]
pub fn is_uid_text(text: &str, number: u64) -> bool
    ensures { result ≡ bytes_eq text.now (uid_text number) }
{
    if number == 0 {
        return text == "";
    }
    text.as_bytes() == uid_bytes(number).as_slice()
}

/// The text of a UID that is not 0, with no allocation.
pub(crate) fn uid_bytes(number: u64) -> [u8; 36]
    ensures { result ≡ uid_prefix ++ twelve_digits number }
{
    let mut text = *b"00000000-0000-4000-8000-000000000000";
    // It can't fail: six bytes make twelve digits, and there is room for twelve.
    let _ = hex::encode_to_slice(&number.to_be_bytes()[2..], &mut text[24..]);
    text
}

/// Whether the text is that of the resource version: the decimal of the revision.
pub fn is_version_text(text: &str, revision: u64) -> bool
    ensures { result ≡ bytes_eq text.now (decimal revision) }
{
    text == itoa::Buffer::new().format(revision)
}

/// The number of a UID's text, if the text is of the store's form. It is never 0.
#[tactic(auto, unfolding(crate::specs::Uid::uid_number))]
pub fn uid_number(text: &str) -> Option<u64>
    ensures value { result ≡ uid_number text.now }
    ensures small { IfSome result (λ number. number < 2 ^ 48) }
{
    if text.len() != 36 {
        return None;
    }
    let number = hex_value(&text.as_bytes()[24..]);
    // Compared with its own text, as upper-case digits and other bytes have a value too.
    if 0 < number && number < 1 << 48 && is_uid_text(text, number) {
        Some(number)
    } else {
        None
    }
}

// The value of hexadecimal digits; another byte counts as 0.
fn hex_value(digits: &[u8]) -> u64
    requires { length digits.now ≤ 12 }
    ensures { result ≡ hex_value digits.now }
{
    let mut value = 0;
    for digit in digits {
        value = 16 * value + u64::from(digit_value(*digit));
    }
    value
}

fn digit_value(digit: u8) -> u8
    ensures value { result ≡ unwrap_or (hex_digit_value digit) 0 }
    ensures small { result < 16 }
{
    match digit {
        b'0'..=b'9' => digit - b'0',
        b'a'..=b'f' => digit - b'a' + 10,
        b'A'..=b'F' => digit - b'A' + 10,
        _ => 0,
    }
}

/// The number of a resource version, or 0 if the text has another form: a decimal from 1 to 18,446,744,073,709,551,615
/// without leading zeros is one.
#[tactic(auto, unfolding(crate::specs::Uid::version_number))]
pub fn version_number(text: &str) -> u64
    ensures { result ≡ version_number text.now }
{
    let bytes = text.as_bytes();
    if bytes.is_empty() || bytes[0] <= b'0' {
        return 0;
    }
    text.parse().unwrap_or(0)
}

/// The texts of UIDs and their numbers are one to one: the text of a number from 1 to 2^48 - 1 reads back as it, and a
/// text that has a number is the text of that number. So two such numbers have two texts.
pub fn uid_texts_read_back()
    ensures read { (number : ℕ) → 0 < number → number < 2 ^ 48 → uid_number (uid_text number) ≡ Some number }
    ensures only { (text : List ℕ) (number : ℕ) → uid_number text ≡ Some number
        → (uid_text number ≡ text) × (0 < number) × (number < 2 ^ 48) }
{}
