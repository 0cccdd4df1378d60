// The parts of a template. What is of the wrong type counts as missing.
ghost use Rattle.std.specs.Prelude.{◌≡◌, IfOk};
ghost use Rattle.manifests.specs.Template.{labels_in, template_of, texts_in};

use crate::members::part;
use objects::{Members, are_texts};
use revisions::RevisionView;
use std::alloc::{AllocError, Global};

/// The members of the revision's template.
pub(crate) fn template_of(alloc: Global, revision: &RevisionView<'_>) -> Result<Members, AllocError>
    ensures { IfOk result (λ template. template ≡ template_of revision.now.object.now) }
{
    match revision.template() {
        Some(template) => template.clone(),
        None => Members::none(alloc),
    }
}

/// The members of a part, if all of them are texts.
pub(crate) fn texts_in(alloc: Global, members: &Members, key: &str) -> Result<Members, AllocError>
    ensures { IfOk result (λ found. found ≡ texts_in key.now members.now) }
{
    let texts = part(alloc, members, key)?;
    if are_texts(texts.entries()) {
        Ok(texts)
    } else {
        Members::none(alloc)
    }
}

/// The template's labels.
pub(crate) fn labels_in(alloc: Global, metadata: &Members) -> Result<Members, AllocError>
    ensures { IfOk result (λ found. found ≡ labels_in metadata.now) }
{
    texts_in(alloc, metadata, "labels")
}
