// The objects of an input, as a plan needs them.
ghost use Rattle.std.specs.Prelude.{◌≡◌, ◌&&◌, find, option_map, OnOk};
ghost use Rattle.objects.specs.Reading.{reading};
ghost use Rattle.objects.specs.Steps.{Gives};
ghost use Rattle.plain.specs.Lines.{lines};
ghost use Rattle.plan_lines.specs.Objects.{is_named, lists_of, nothing, read_from, with_last};

use objects::{Draft, Kind, Object, ReadError, TreeReader, read_draft};
use plain::split_line;
use std::alloc::{AllocError, Global};

/// Objects by their kinds, each list in the order of the input.
#[derive(Drop)]
pub struct Listed {
    pub sets: Vec<Object>,
    pub pods: Vec<Object>,
    pub claims: Vec<Object>,
    pub revisions: Vec<Object>,
}

impl Listed {
    ghost use Rattle.std.specs.Prelude.{◌≡◌, OnOk};
    ghost use Rattle.plan_lines.specs.Objects.{lists_of, nothing, with_last};

    fn new(alloc: Global) -> Listed
        ensures { lists_of result ≡ nothing }
    {
        Listed {
            sets: Vec::new(alloc),
            pods: Vec::new(alloc),
            claims: Vec::new(alloc),
            revisions: Vec::new(alloc),
        }
    }

    /// Appends the object to the list of its kind.
    fn add(&mut self, object: Object) -> Result<(), AllocError>
        ensures { OnOk result (lists_of self.new ≡ with_last (lists_of self.old) object) }
    {
        match object.key.kind {
            Kind::StatefulSet => self.sets.push(object)?,
            Kind::Pod => self.pods.push(object)?,
            Kind::PersistentVolumeClaim => self.claims.push(object)?,
            Kind::ControllerRevision => self.revisions.push(object)?,
        }
        Ok(())
    }
}

/// The objects of a text, one a line, by their kinds. A line ends with a line feed or with the text.
///
/// # Errors
///
/// The refusal of the first line that is no object; an empty line is none.
pub fn read_objects(alloc: Global, text: &[u8]) -> Result<Listed, ReadError>
    ensures { Gives lists_of result (read_from nothing (lines text.now)) }
{
    let mut reader = TreeReader::new(alloc);
    let mut listed = Listed::new(alloc);
    let mut rest = text;
    'lines: while let Some(split) = split_line(rest) {
        let (line, after) = split;
        let draft = read_line(alloc, &mut reader, line)?;
        listed.add(draft.object)?;
        rest = after;
    }
    Ok(listed)
}

// The object of a line.
#[tactic(auto, using(objects::proofs::Chains::fails_then), unfolding(objects::specs::Reading::reading))]
pub(crate) fn read_line(
    alloc: Global,
    reader: &mut TreeReader,
    line: &[u8],
) -> Result<Draft, ReadError>
    ensures { Gives (λ draft. draft) result (reading line.now) }
{
    let tree = reader.read(line)?;
    read_draft(alloc, tree)
}

/// The set of that namespace and name, the first one if there are several.
pub fn named_set<'a>(sets: &'a [Object], namespace: &str, name: &str) -> Option<&'a Object>
    ensures { option_map (λ set. set.now) result ≡ find (is_named namespace.now name.now) sets.now }
{
    for set in sets {
        if is_named(set, namespace, name) {
            return Some(set);
        }
    }
    None
}

fn is_named(object: &Object, namespace: &str, name: &str) -> bool
    ensures { result ≡ is_named namespace.now name.now object.now }
{
    object.key.namespace.as_str() == namespace && object.key.name.as_str() == name
}
