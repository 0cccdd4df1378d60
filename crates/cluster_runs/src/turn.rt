use crate::event::ClusterEvent;
use requests::Request;

/// What a line of a script means: the events that come next. If a turn names something that does not exist, it does
/// nothing.
#[derive(Drop)]
pub enum Turn {
    /// This one.
    Event(ClusterEvent),
    /// The steps that bring the controller's open request to its reply while no other caller moves: the steps of its
    /// caller that `Replay::next_step` names, up to the reply. They end before it if no step helps: the shard is held,
    /// or a number below what the caller saw is not filled. There are none if the controller has no open request, or
    /// does not exist.
    Run(usize),
    /// The same steps, for any caller.
    RunCaller(u64),
    /// Another client calls the request, as an idle caller that no controller is or was, and it is brought to its
    /// reply. For any other caller nothing is called.
    Ask(u64, Request),
    /// A round of the controller: it calls its next request, which is brought to its reply, again and again, until the
    /// next one would be the read of its set, or until a reply does not come. A request that is still open is continued
    /// first.
    Round(usize),
    /// A round of the controller up to its next write: as a round, but it stops before it calls anything other than a
    /// get or a list. If a write is next, nothing happens. So a `Next` after it calls the write, if the round has one.
    Approach(usize),
    /// So many times, each controller makes a round, in the order of the numbers, and then a kubelet makes a turn. It
    /// lists the pods of each namespace, and sends for these what `rounds::turn_requests` says, each brought to its
    /// reply. If a reply does not come, its turn ends, and the next one begins with the request that is still open. The
    /// kubelet is the lowest caller that was not used when the first `Settle` of the run with a round began, and stays
    /// that caller for all of them.
    Settle { rounds: u64 },
}
