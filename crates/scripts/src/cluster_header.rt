// The first line of a cluster's script: what the cluster is made of.
ghost use Rattle.scripts.specs.ClusterScripts.{cluster_in, cluster_parts};
ghost use Rattle.scripts.specs.Events.{Reads};

use crate::fault::ScriptError;
use crate::header::header_in;
use crate::set::sets_in;
use controllers::ClusterSpec;
use objects::Members;
use std::alloc::Global;

#[tactic(auto, using(crate::proofs::Readings::fails_bind))]
pub(crate) fn cluster_in(alloc: Global, members: &Members) -> Result<ClusterSpec, ScriptError>
    ensures { Reads cluster_parts result (cluster_in members.now) }
{
    let size = header_in(members)?;
    let sets = sets_in(alloc, members)?;
    Ok(ClusterSpec {
        shards: size.shards as usize,
        capacity: size.capacity,
        sets,
    })
}
