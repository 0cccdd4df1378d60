// The rules of names.
ghost use Rattle.std.specs.Prelude.{◌≡◌, ◌&&◌, nat_le, length, slice_index, ◌-◌, ◌<◌};
ghost use Rattle.std.specs.List.{list_all};
ghost use Rattle.objects.specs.Names.{is_alphanumeric, is_label_byte, is_subdomain_byte, is_dns_label, is_subdomain_name};
ghost use Rattle.objects.specs.Kind.{is_name};

use crate::kind::Kind;

fn is_alphanumeric(byte: u8) -> bool
    ensures { result ≡ is_alphanumeric byte }
{
    byte.is_ascii_lowercase() || byte.is_ascii_digit()
}

fn is_label_byte(byte: u8) -> bool
    ensures { result ≡ is_label_byte byte }
{
    is_alphanumeric(byte) || byte == b'-'
}

/// Which bytes are letters, digits, `-` or `.`, by their numbers. Each name of each line is looked through.
const NAME_BYTES: [bool; 128] = [
    false, false, false, false, false, false, false, false, false, false, false, false, false,
    false, false, false, false, false, false, false, false, false, false, false, false, false,
    false, false, false, false, false, false, false, false, false, false, false, false, false,
    false, false, false, false, false, false, true, true, false, true, true, true, true, true,
    true, true, true, true, true, false, false, false, false, false, false, false, false, false,
    false, false, false, false, false, false, false, false, false, false, false, false, false,
    false, false, false, false, false, false, false, false, false, false, false, false, false,
    false, false, false, false, true, true, true, true, true, true, true, true, true, true, true,
    true, true, true, true, true, true, true, true, true, true, true, true, true, true, true,
    false, false, false, false, false,
];

#[inline(always)]
fn is_subdomain_byte(byte: u8) -> bool
    ensures { result ≡ is_subdomain_byte byte }
{
    byte < 128 && NAME_BYTES[byte as usize]
}

// Whether there are 1 to `most` bytes.
fn is_long_enough(bytes: &[u8], most: usize) -> bool
    ensures { result ≡ (nat_le 1 (length bytes.now) && nat_le (length bytes.now) most) }
{
    1 <= bytes.len() && bytes.len() <= most
}

fn are_label_bytes(bytes: &[u8]) -> bool
    ensures { result ≡ list_all is_label_byte bytes.now }
{
    bytes.iter().all(|&byte| is_label_byte(byte))
}

fn are_subdomain_bytes(bytes: &[u8]) -> bool
    ensures { result ≡ list_all is_subdomain_byte bytes.now }
{
    bytes.iter().all(|&byte| is_subdomain_byte(byte))
}

// Whether the first and the last byte are letters or digits.
fn has_edges(bytes: &[u8]) -> bool
    requires { 0 < length bytes.now }
    ensures { result ≡ (is_alphanumeric (slice_index bytes.now 0) && is_alphanumeric (slice_index bytes.now (length bytes.now - 1))) }
{
    is_alphanumeric(bytes[0]) && is_alphanumeric(bytes[bytes.len() - 1])
}

/// The most bytes of a DNS label (RFC 1123), and so of a label's value and of a hostname.
pub const MAX_LABEL: usize = 63;

/// Whether the text is a DNS label (RFC 1123): 1 to 63 bytes of `a-z`, `0-9` and `-`, the first and the last a letter or
/// a digit.
#[tactic(auto, unfolding(crate::specs::Names::is_dns_label))]
pub fn is_dns_label(text: &str) -> bool
    ensures { result ≡ is_dns_label text.now }
{
    // The namespace of most objects.
    if text == "default" {
        return true;
    }
    let bytes = text.as_bytes();
    is_long_enough(bytes, MAX_LABEL) && are_label_bytes(bytes) && has_edges(bytes)
}

/// Whether the text is a DNS subdomain name, leniently.
#[tactic(auto, unfolding(crate::specs::Names::is_subdomain_name))]
fn is_subdomain_name(text: &str) -> bool
    ensures { result ≡ is_subdomain_name text.now }
{
    let bytes = text.as_bytes();
    is_long_enough(bytes, 253) && are_subdomain_bytes(bytes) && has_edges(bytes)
}

/// Whether an object of the kind may have the name.
pub(crate) fn is_name(kind: Kind, text: &str) -> bool
    ensures { result ≡ is_name kind text.now }
{
    match kind {
        Kind::StatefulSet => is_dns_label(text),
        Kind::Pod | Kind::PersistentVolumeClaim | Kind::ControllerRevision => {
            is_subdomain_name(text)
        }
    }
}
