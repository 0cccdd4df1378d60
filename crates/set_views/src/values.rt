// Values among the members of an object, as the API server reads them: `null` counts as missing.
ghost use Rattle.std.specs.Prelude.{◌≡◌, ◌<◌, ◌^◌, option_map, option_and_then, IfSome};
ghost use Rattle.serde_json.specs.Find.{as_str};
ghost use Rattle.objects.specs.Object.{is_text};
ghost use Rattle.objects.specs.Tree.{data_of};
ghost use Rattle.set_views.specs.Values.{present, inside, count_of, count_or};

use objects::Tree;

/// The largest number of the API's integers of 32 bits with a sign.
pub(crate) const MAX_COUNT: u32 = 2_147_483_647;

/// The value, unless it is `null`.
pub(crate) fn present(found: Option<&Tree>) -> Option<&Tree>
    ensures { option_map (λ t. data_of t.now) result ≡ present (option_map (λ t. data_of t.now) found.entry) }
{
    match found {
        None | Some(Tree::Null) => None,
        Some(value) => Some(value),
    }
}

/// The value of a member of this value, if it is a map.
pub(crate) fn inside<'a>(found: Option<&'a Tree>, key: &str) -> Option<&'a Tree>
    ensures { option_map (λ t. data_of t.now) result ≡ inside key.now (option_map (λ t. data_of t.now) found.entry) }
{
    found?.as_map()?.get(key)
}

/// The text, if the value is one.
pub(crate) fn text_in(found: Option<&Tree>) -> Option<&str>
    ensures { option_map (λ s. s.now) result ≡ option_and_then as_str (option_map (λ t. data_of t.now) found.entry) }
{
    found?.as_text()
}

/// The number, if it is whole and from 0 to 2147483647.
pub(crate) fn count_of(value: &Tree) -> Option<u32>
    ensures value { result ≡ count_of (data_of value.now) }
    ensures small { IfSome result (λ count. count < 2 ^ 31) }
{
    let Tree::Integer(number) = value else {
        return None;
    };
    match number.as_u64() {
        Some(count) if count <= u64::from(MAX_COUNT) => Some(count as u32),
        _ => None,
    }
}

/// The number, or the default if there is no value.
pub(crate) fn count_or(default: u32, found: Option<&Tree>) -> Option<u32>
    ensures value { result ≡ count_or default (option_map (λ t. data_of t.now) found.entry) }
    ensures small { default < 2 ^ 31 → IfSome result (λ count. count < 2 ^ 31) }
{
    match found {
        None => Some(default),
        Some(value) => count_of(value),
    }
}

/// Whether the value is this text.
pub(crate) fn is_word(value: &Tree, word: &str) -> bool
    ensures { result ≡ is_text word.now (data_of value.now) }
{
    value.as_text() == Some(word)
}
