ghost use Rattle.std.specs.Prelude.{◌≡◌, IfOk, OnErr};
ghost use Rattle.plain_store.specs.Reached.{IsReached};
ghost use Rattle.plain_store.specs.Store.{Store, step};
ghost use Rattle.plain_store.specs.declared.api.ApiFault.TheVariants.{Memory as OutOfMemory};

use crate::store::Plain;
use crate::tree_store::Trees;
use objects::Memory;
use requests::{Reply, Request};
use thiserror::Error;

/// Why a request has no reply.
#[derive(Clone, Copy, Debug, PartialEq, Eq, Error)]
pub enum ApiFault {
    #[error("memory ran out")]
    Memory,
}

impl From<Memory> for ApiFault {
    ghost from_gives = { λ _ e. e ≡ OutOfMemory };

    fn from(_memory: Memory) -> ApiFault {
        ApiFault::Memory
    }
}

/// What replies to requests as a plain store does, one whole request at a time.
pub trait Api {
    /// The plain store that it replies as.
    ghost store: { Self → Store };

    /// The reply to a request. At a fault nothing has changed.
    fn ask(&mut self, request: Request) -> Result<Reply, ApiFault>
        ensures reached { IsReached (store self.old) }
        ensures step { IfOk result (λ reply. (store self.new, reply) ≡ step (store self.old) request) }
        ensures fault { OnErr result (store self.new ≡ store self.old) };
}

impl Api for Plain {
    ghost store = { λ plain. plain };

    fn ask(&mut self, request: Request) -> Result<Reply, ApiFault> {
        Ok(self.take(request)?)
    }
}

impl Api for Trees {
    ghost store = { λ trees. trees };

    fn ask(&mut self, request: Request) -> Result<Reply, ApiFault> {
        Ok(self.take(request)?)
    }
}
