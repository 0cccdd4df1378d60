ghost use Rattle.std.specs.Prelude.{◌≡◌, IfOk, map};
ghost use Rattle.plain_store.specs.PrintedReplies.{reply_stored};

use objects::{Memory, Object, Printer, TreeReader};
use packed::Packed;
use requests::{Listing, Reason, Reply};
use std::alloc::Global;

/// The reply to a request that is no write, its objects as the store keeps them.
#[derive(Drop)]
pub enum StoredReply<'a> {
    Found(&'a Packed),
    /// The objects in byte order of their names, and the resource version of the store that they were read at.
    Listed {
        objects: Vec<&'a Packed>,
        revision: u64,
    },
    /// The resource version that the store can now be read from.
    Compacted {
        revision: u64,
    },
    Refused(Reason),
}

impl StoredReply<'_> {
    /// The reply, its objects read back.
    pub(crate) fn reply(&self, alloc: Global) -> Result<Reply, Memory>
        ensures { IfOk result (λ reply. reply ≡ reply_stored self.now) }
    {
        let mut reader = TreeReader::new(alloc);
        let mut printer = Printer::new(alloc);
        match self {
            StoredReply::Found(packed) => {
                Ok(Reply::Found(packed.object(&mut reader, &mut printer)?))
            }
            StoredReply::Listed { objects, revision } => {
                let objects = read_all(alloc, objects.as_slice(), &mut reader, &mut printer)?;
                Ok(Reply::Listed {
                    objects: Listing::from(objects),
                    revision: *revision,
                })
            }
            StoredReply::Compacted { revision } => Ok(Reply::Compacted {
                revision: *revision,
            }),
            StoredReply::Refused(reason) => Ok(Reply::Refused(*reason)),
        }
    }
}

/// The objects, read back.
fn read_all(
    alloc: Global,
    packed: &[&Packed],
    reader: &mut TreeReader,
    printer: &mut Printer,
) -> Result<Vec<Object>, Memory>
    ensures { IfOk result (λ objects. objects.items ≡ map (λ o. o.now) packed.now) }
{
    let mut objects = Vec::with_capacity(alloc, packed.len())?;
    for object in packed {
        objects.push(object.object(reader, printer)?)?;
    }
    Ok(objects)
}
