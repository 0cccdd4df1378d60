// The pods that are written and read.
use objects::{Draft, Key, Kind, Memory, ReadError, Text, read_draft};
use std::alloc::Global;
use trees::TreeReader;

/// How many pods there are.
pub(crate) const PODS: u64 = 2_000;

/// How many of them a namespace has.
const SPACE: u64 = 100;

/// The namespace of a pod.
pub(crate) fn namespace(alloc: Global, pod: u64) -> Result<Text, Memory> {
    let name = format!(in alloc; "ns-{}", pod / SPACE)?;
    Ok(Text::copy_of(alloc, name.as_str())?)
}

pub(crate) fn key(alloc: Global, pod: u64) -> Result<Key, ReadError> {
    let namespace = format!(in alloc; "ns-{}", pod / SPACE)?;
    let name = format!(in alloc; "web-{pod}")?;
    Key::of(alloc, Kind::Pod, namespace.as_str(), name.as_str())
}

/// Makes the pods that are written, in memory that it keeps from pod to pod.
#[derive(Drop)]
pub(crate) struct Drafts {
    alloc: Global,
    reader: TreeReader,
}

impl Drafts {
    pub(crate) fn new(alloc: Global) -> Drafts {
        Drafts {
            alloc,
            reader: TreeReader::new(alloc),
        }
    }

    /// A pod of some 170 bytes with that label.
    pub(crate) fn next(&mut self, pod: u64, label: u64) -> Result<Draft, ReadError> {
        let space = pod / SPACE;
        let text = format!(in self.alloc;
            "{{\"kind\":\"Pod\",\"metadata\":{{\"labels\":{{\"app\":\"web\",\"turn\":\"{label}\"}},\"name\":\"web-{pod}\",\"namespace\":\"ns-{space}\"}},\"spec\":{{\"containers\":[{{\"image\":\"web:1\",\"name\":\"web\"}}],\"nodeName\":\"n-1\"}}}}"
        )?;
        let tree = self.reader.read(text.as_bytes())?;
        read_draft(self.alloc, tree)
    }
}
