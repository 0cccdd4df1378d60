// One controller makes its round, or the part of it before its next write.
ghost use Rattle.std.specs.Prelude.{◌≡◌, ◌<◌, length, IfErr, IfOk, OnErr};
ghost use Rattle.cluster_runs.specs.Leading.{GoesAlong, Peeks, is_meant};
ghost use Rattle.cluster_runs.specs.Shown.{HaveCallers, IsConsistent, Stay};
ghost use Rattle.cluster_runs.specs.declared.fault.ClusterFault.TheVariants.{Memory as OutOfMemory};
ghost use Rattle.cluster_runs.specs.Turns.{approach, approach_of, asked, asked_while, begins, ends_with, is_read, most_requests, nothing, round, round_of};

use crate::cluster::Cluster;
use crate::fault::ClusterFault;
use requests::{Reply, Request};
use rounds::ControlLoop;

/// A bound that proves that the loop ends: no round comes near it.
const MOST_REQUESTS: u64 = 4_294_967_296;

/// Which requests of a round are sent.
#[derive(Clone, Copy)]
pub(crate) enum Meant {
    /// All but the first request of a round.
    Within,
    /// The reads among these.
    ReadWithin,
    /// All that are not reads.
    Write,
}

impl Meant {
    fn is_meant(self, request: &Request) -> bool
        ensures { result ≡ is_meant self request.now }
    {
        match self {
            Meant::Within => !begins(request),
            Meant::ReadWithin => !begins(request) && is_read(request),
            Meant::Write => !is_read(request),
        }
    }
}

/// Whether a round begins with this request.
fn begins(request: &Request) -> bool
    ensures { result ≡ begins request.now }
{
    matches!(request, Request::Get(_))
}

/// Whether the request is a get or a list.
fn is_read(request: &Request) -> bool
    ensures { result ≡ is_read request.now }
{
    matches!(request, Request::Get(_) | Request::List { .. })
}

impl Cluster {
    /// The round of the controller, if it exists.
    pub(crate) fn round<C: ControlLoop>(
        &mut self,
        controllers: &mut [C],
        number: usize,
    ) -> Result<(), ClusterFault>
        requires { IsConsistent controllers.old self.old }
        ensures { GoesAlong C.reconciler C.phase C.is_waiting
            (round_of number) (λ done. nothing) self.old self.new controllers.old controllers.new result }
    {
        if number < controllers.len() {
            return self.make_round(controllers, number);
        }
        Ok(())
    }

    /// What the controller sends before its next write, if the controller exists.
    pub(crate) fn approach<C: ControlLoop>(
        &mut self,
        controllers: &mut [C],
        number: usize,
    ) -> Result<(), ClusterFault>
        requires { IsConsistent controllers.old self.old }
        ensures { GoesAlong C.reconciler C.phase C.is_waiting
            (approach_of number) (λ done. nothing) self.old self.new controllers.old controllers.new result }
    {
        if number < controllers.len() {
            return self.make_approach(controllers, number);
        }
        Ok(())
    }

    /// The controller continues until its round is over, or a reply does not come.
    pub(crate) fn make_round<C: ControlLoop>(
        &mut self,
        controllers: &mut [C],
        number: usize,
    ) -> Result<(), ClusterFault>
        requires consistent { IsConsistent controllers.old self.old }
        requires there { number < length controllers.old }
        ensures { GoesAlong C.reconciler C.phase C.is_waiting
            (round number) (λ done. nothing) self.old self.new controllers.old controllers.new result }
    {
        self.ask_while(controllers, number, Meant::Within)
    }

    /// The controller continues until it would call a write, or its round is over, or a reply does not come.
    fn make_approach<C: ControlLoop>(
        &mut self,
        controllers: &mut [C],
        number: usize,
    ) -> Result<(), ClusterFault>
        requires consistent { IsConsistent controllers.old self.old }
        requires there { number < length controllers.old }
        ensures { GoesAlong C.reconciler C.phase C.is_waiting
            (approach number) (λ done. nothing) self.old self.new controllers.old controllers.new result }
    {
        let writes = self.is_next(controllers, number, Meant::Write)?;
        if writes {
            return Ok(());
        }
        self.ask_while(controllers, number, Meant::ReadWithin)
    }

    /// The controller sends its next request, and then each further one that is meant.
    fn ask_while<C: ControlLoop>(
        &mut self,
        controllers: &mut [C],
        number: usize,
        meant: Meant,
    ) -> Result<(), ClusterFault>
        requires consistent { IsConsistent controllers.old self.old }
        requires there { number < length controllers.old }
        ensures { GoesAlong C.reconciler C.phase C.is_waiting
            (asked_while (is_meant meant) most_requests number) (λ done. nothing) self.old self.new controllers.old controllers.new result }
    {
        for _ in 0..MOST_REQUESTS {
            drop(self.ask_next(controllers, number)?);
            let more = self.is_next(controllers, number, meant)?;
            if !more {
                return Ok(());
            }
        }
        Ok(())
    }

    /// The controller sends its next request.
    fn ask_next<C: ControlLoop>(
        &mut self,
        controllers: &mut [C],
        number: usize,
    ) -> Result<Option<Reply>, ClusterFault>
        requires consistent { IsConsistent controllers.old self.old }
        requires there { number < length controllers.old }
        ensures { GoesAlong C.reconciler C.phase C.is_waiting (asked number) ends_with self.old self.new controllers.old controllers.new result }
    {
        self.call_next(controllers, number)?;
        let caller = self.callers.present[number];
        self.carry(controllers, caller)
    }

    /// Whether the controller got its reply, and its next request is meant.
    fn is_next<C: ControlLoop>(
        &self,
        controllers: &mut [C],
        number: usize,
        meant: Meant,
    ) -> Result<bool, ClusterFault>
        requires present { HaveCallers controllers.old self.now }
        requires there { number < length controllers.old }
        ensures many { length controllers.new ≡ length controllers.old }
        ensures peeks { IfOk result (λ is. Peeks C.reconciler C.phase C.is_waiting (is_meant meant) number is self.now controllers.old controllers.new) }
        ensures stays { OnErr result (Stay C.reconciler C.phase controllers.old controllers.new) }
        ensures reasons { IfErr result (λ fault. fault ≡ OutOfMemory) }
    {
        let caller = self.callers.present[number];
        if !self.replay.idle(caller) {
            return Ok(false);
        }
        let request = controllers[number].next()?;
        let is = meant.is_meant(&request);
        drop(request);
        Ok(is)
    }
}
