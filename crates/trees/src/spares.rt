// Vectors that are kept and filled again, so that a list or a map need not grow from nothing.
ghost use Rattle.std.specs.Prelude.{◌≡◌, [], IfOk};

use crate::text::Text;
use crate::tree::Tree;
use std::alloc::{AllocError, Global};

/// A vector with room for more parts is not kept.
const MOST_PARTS: usize = 64;

/// Vectors for the parts of lists and of maps.
#[derive(Drop)]
pub(crate) struct Spares {
    pub items: Stock<Tree>,
    pub entries: Stock<(Text, Tree)>,
}

impl Spares {
    pub(crate) fn new(alloc: Global) -> Spares {
        Spares {
            items: Stock::new(alloc),
            entries: Stock::new(alloc),
        }
    }
}

/// Vectors of parts of one type.
#[derive(Drop)]
pub(crate) struct Stock<T> {
    vectors: Vec<Vec<T>>,
}

impl<T: Drop> Stock<T> {
    fn new(alloc: Global) -> Stock<T> {
        Stock {
            vectors: Vec::new(alloc),
        }
    }

    /// An empty vector.
    pub(crate) fn take(&mut self, alloc: Global) -> Vec<T>
        ensures { result.items ≡ [] }
    {
        match self.vectors.pop() {
            Some(mut vector) => {
                vector.clear();
                vector
            }
            None => Vec::new(alloc),
        }
    }

    /// The parts in no more memory than they need. The vector that they came in is kept, unless it is large.
    pub(crate) fn tight(&mut self, alloc: Global, mut parts: Vec<T>) -> Result<Vec<T>, AllocError>
        ensures { IfOk result (λ kept. kept.items ≡ parts.items) }
    {
        let mut kept = Vec::with_capacity(alloc, parts.len())?;
        kept.append(&mut parts)?;
        if parts.capacity() <= MOST_PARTS {
            self.vectors.push(parts)?;
        }
        Ok(kept)
    }
}
