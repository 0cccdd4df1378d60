// Texts that are written as they are.
ghost use Rattle.std.specs.Prelude.{◌≡◌};
ghost use Rattle.json.specs.Print.{escape};

use objects::Key;

/// A text of which no byte is escaped.
#[derive(Clone, Copy, Drop)]
pub(crate) struct PlainText<'a> {
    pub(crate) text: &'a str,
    ghost plain: { escape text.now ≡ text.now },
}

/// The name of the key.
pub(crate) fn plain_name<'a>(key: &'a Key) -> PlainText<'a>
    ensures { result.text.now ≡ key.now.name }
{
    PlainText {
        text: key.name.as_str(),
    }
}

/// The namespace of the key.
pub(crate) fn plain_namespace<'a>(key: &'a Key) -> PlainText<'a>
    ensures { result.text.now ≡ key.now.namespace }
{
    PlainText {
        text: key.namespace.as_str(),
    }
}
