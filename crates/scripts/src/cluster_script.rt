ghost use Rattle.scripts.specs.ClusterScripts.{cluster_script_of, parts_of};
ghost use Rattle.scripts.specs.Events.{Reads};

use crate::cluster_header::cluster_in;
use crate::fault::ScriptError;
use crate::from_lines::{FromLines, read_lines};
use crate::turn::turn_in;
use controllers::{ClusterSpec, Turn};
use objects::Members;
use std::alloc::Global;

/// A run of a cluster: what it is made of, and its turns, first to last. Neither the capacity nor the number of shards is
/// bounded here, and a controller that a turn names may be none of the cluster's.
#[derive(Drop)]
pub struct ClusterScript {
    pub spec: ClusterSpec,
    pub turns: Vec<Turn>,
}

/// The script in a text. Its first line is
/// `{"capacity":C,"sets":[{"digits":H,"moment":T,"name":N,"namespace":S}],"shards":K}`: there is a controller for each
/// set, in order and numbered from 0. Of a set only `name` is required, a DNS label (RFC 1123); `namespace` is one too,
/// by default `default`. `digits` is how many hex digits of its hash the name of a new revision has, from 1 to 64, by
/// default 10. `moment` is what pods are marked with for deletion (`metadata.deletionTimestamp`), a text that is not
/// empty, by default `2024-01-01T00:00:00Z`.
///
/// Each other line is a turn, which is one event or several:
///
/// - `{"controller":I,"event":"next"}`: the controller calls its next request;
/// - `{"controller":I,"event":"crash"}`: the controller crashes;
/// - `{"caller":N,"event":"outside","request":L}`: another client calls, with L as a request line of `serve`;
/// - `{"caller":N,"event":E}`, E one of `check`, `reserve`, `publish`, `read`, `readat`, `compact`, `part`, `reply` and
///   `crash`, or `{"event":"raise"}`: a step of the store, as in a script of `stsctl replay`. A `crash` with a member
///   `controller` is that of a controller;
/// - `{"controller":I,"event":"run"}`: the steps that bring the controller's open request to its reply, as `Turn::Run`
///   says; `{"caller":N,"event":"run"}`, with no member `controller`: those of a caller, as `Turn::RunCaller` says;
/// - `{"caller":N,"event":"ask","request":L}`: what `outside` calls, brought to its reply, as `Turn::Ask` says;
/// - `{"controller":I,"event":"round"}`: a round of the controller, as `Turn::Round` says;
/// - `{"controller":I,"event":"approach"}`: its round up to its next write, as `Turn::Approach` says;
/// - `{"event":"settle","rounds":R}`, R from 1 to 1,024: rounds of all controllers and turns of a kubelet, as `Turn::Settle` says.
///
/// Other members are ignored, and of members with the same name the last counts. C, K, I and N are whole numbers below
/// 2^64.
///
/// # Errors
///
/// `BadScript` if a line is none of these, also if it is cut off or empty, or if there is no line.
#[tactic(auto, unfolding(crate::specs::Turns::turn_of, crate::specs::ClusterScripts::cluster_script_of))]
pub fn read_cluster_script(alloc: Global, text: &[u8]) -> Result<ClusterScript, ScriptError>
    ensures { Reads parts_of result (cluster_script_of text.now) }
{
    let (spec, turns) = read_lines::<ClusterScript>(alloc, text)?;
    Ok(ClusterScript { spec, turns })
}

impl FromLines for ClusterScript {
    ghost use Rattle.scripts.specs.Turns.{turn_in};
    ghost use Rattle.scripts.specs.ClusterScripts.{ClusterParts, cluster_in, cluster_parts};

    type Header = ClusterSpec;

    type Event = Turn;

    ghost Parts = { ClusterParts };

    ghost parts = { cluster_parts };

    ghost header = { cluster_in };

    ghost event = { turn_in };

    fn header_in(alloc: Global, members: &Members) -> Result<ClusterSpec, ScriptError> {
        cluster_in(alloc, members)
    }

    fn event_in(alloc: Global, members: Members) -> Result<Turn, ScriptError> {
        turn_in(alloc, members)
    }
}
