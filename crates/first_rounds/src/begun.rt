ghost use Rattle.std.specs.Prelude.{◌≡◌, OnOk};
ghost use Rattle.plain_store.specs.Run.{after};

use objects::Memory;
use plain_store::Trees;
use requests::Request;

/// The store handles the requests, one after another.
pub(crate) fn pass(store: &mut Trees, requests: &[Request]) -> Result<(), Memory>
    ensures { OnOk result (store.new ≡ after store.old requests.now) }
{
    for request in requests {
        drop(store.take(request.clone()?)?);
    }
    Ok(())
}
