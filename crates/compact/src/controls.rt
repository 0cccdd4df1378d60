// Control bytes of texts that have no short escape.
ghost use Rattle.std.specs.Prelude.{◌≡◌, ◌<◌, ◌∷◌, ◌++◌, [], length, IfSome};
ghost use Rattle.json.specs.Print.{escape_byte};
ghost use Rattle.compact.specs.Begins.{EndsEscape};

/// What follows `u` and four digits, if they write a control byte.
pub(crate) fn control_rest(text: &[u8]) -> Option<&[u8]>
    ensures escape { IfSome result (λ rest. EndsEscape text.now rest.now) }
    ensures shorter { IfSome result (λ rest. length rest.now < length text.now) }
{
    let behind = text.strip_prefix(b"u00")?;
    let (high, last) = behind.split_first()?;
    let (low, rest) = last.split_first()?;
    let _control = control_of(*high, *low)?;
    Some(rest)
}

// The control byte of these two hexadecimal digits, unless it has a short escape.
#[tactic(auto, unfolding(json::specs::Print::escape_byte))]
fn control_of(high: u8, low: u8) -> Option<u8>
    ensures { IfSome result (λ byte. escape_byte byte ≡ 92 ∷ 117 ∷ 48 ∷ 48 ∷ high ∷ low ∷ []) }
{
    match high {
        b'0' => low_control(low),
        b'1' => high_control(low),
        _ => None,
    }
}

#[tactic(auto, unfolding(json::specs::Print::escape_byte))]
fn low_control(low: u8) -> Option<u8>
    ensures { IfSome result (λ byte. escape_byte byte ≡ 92 ∷ 117 ∷ 48 ∷ 48 ∷ 48 ∷ low ∷ []) }
{
    match low {
        b'0' => Some(0),
        b'1' => Some(1),
        b'2' => Some(2),
        b'3' => Some(3),
        b'4' => Some(4),
        b'5' => Some(5),
        b'6' => Some(6),
        b'7' => Some(7),
        b'b' => Some(11),
        b'e' => Some(14),
        b'f' => Some(15),
        _ => None,
    }
}

#[tactic(auto, unfolding(json::specs::Print::escape_byte))]
fn high_control(low: u8) -> Option<u8>
    ensures { IfSome result (λ byte. escape_byte byte ≡ 92 ∷ 117 ∷ 48 ∷ 48 ∷ 49 ∷ low ∷ []) }
{
    match low {
        b'0'..=b'9' => Some(low - b'0' + 16),
        b'a'..=b'f' => Some(low - b'a' + 26),
        _ => None,
    }
}
