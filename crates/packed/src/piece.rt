// The pieces of a delta.
ghost use Rattle.std.specs.Prelude.{◌≡◌, ◌<◌, ◌++◌, [], None, length, take, drop, IfSome};
ghost use Rattle.packed.specs.Expanded.{pieces};

/// What a piece copies from the base and what it adds, and the base and the delta after these.
#[derive(Clone, Copy, Drop)]
pub(crate) struct Piece<'a> {
    pub(crate) copied: &'a [u8],
    pub(crate) added: &'a [u8],
    pub(crate) base: &'a [u8],
    pub(crate) delta: &'a [u8],
}

/// The first piece of a delta.
pub(crate) fn next_piece<'a>(base: &'a [u8], delta: &'a [u8]) -> Option<Piece<'a>>
    ensures some { IfSome result (λ p. pieces base.now 0 delta.now ≡ p.copied.now ++ (p.added.now ++ pieces p.base.now 0 p.delta.now)) }
    ensures shorter { IfSome result (λ p. length p.delta.now < length delta.now) }
    ensures none { result ≡ None → pieces base.now 0 delta.now ≡ [] }
{
    let (head, after) = delta.split_first_chunk::<3>()?;
    let [skipped, copied, added] = *head;
    let base = rest_of(base, skipped as usize);
    Some(Piece {
        copied: first_of(base, copied as usize),
        added: first_of(after, added as usize),
        base: rest_of(base, copied as usize),
        delta: rest_of(after, added as usize),
    })
}

/// The first bytes, as many as that or all.
fn first_of(bytes: &[u8], count: usize) -> &[u8]
    ensures { result.now ≡ take count bytes.now }
{
    &bytes[..count.min(bytes.len())]
}

/// The bytes from a position on.
fn rest_of(bytes: &[u8], from: usize) -> &[u8]
    ensures { result.now ≡ drop from bytes.now }
{
    &bytes[from.min(bytes.len())..]
}
