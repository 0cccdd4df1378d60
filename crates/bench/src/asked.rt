// What the command line requests.

/// What can be measured.
#[derive(Clone, Copy, PartialEq, Eq)]
pub(crate) enum Load {
    Shard,
    Line,
    Store,
}

/// All loads, in the order in which they are measured.
pub(crate) const LOADS: [Load; 3] = [Load::Shard, Load::Line, Load::Store];

/// How many writes and how many reads the threads over a store make in all.
#[derive(Clone, Copy)]
pub(crate) struct Counts {
    pub(crate) writes: u64,
    pub(crate) reads: u64,
}

#[derive(Clone, Copy)]
pub(crate) struct Options {
    /// The requested load, if it is not all of them.
    load: Option<Load>,
    /// How many pushes and how many readings a shard gets, if the arguments say it.
    pub(crate) pushes: Option<u64>,
    /// How much the threads over a store do, if the arguments say it.
    pub(crate) counts: Option<Counts>,
}

impl Options {
    pub(crate) fn includes(&self, load: Load) -> bool {
        match self.load {
            Some(only) => only == load,
            None => true,
        }
    }
}

/// The load of that name.
fn named(word: &str) -> Option<Load> {
    match word {
        "shard" => Some(Load::Shard),
        "line" => Some(Load::Line),
        "store" => Some(Load::Store),
        _ => None,
    }
}

/// What the arguments after the program's name request, if they request anything that can be measured.
pub(crate) fn read_words(words: &[String]) -> Option<Options> {
    let (load, pushes, counts) = match words {
        [] => (None, None, None),
        [load] => (Some(named(load.as_str())?), None, None),
        [load, pushes] if load.as_str() == "shard" => {
            let pushes = pushes.as_str().parse::<u64>().ok()?;
            (Some(Load::Shard), Some(pushes), None)
        }
        [load, writes, reads] if load.as_str() == "store" => {
            let writes = writes.as_str().parse::<u64>().ok()?;
            let reads = reads.as_str().parse::<u64>().ok()?;
            (Some(Load::Store), None, Some(Counts { writes, reads }))
        }
        _ => return None,
    };
    Some(Options {
        load,
        pushes,
        counts,
    })
}
