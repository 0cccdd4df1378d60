// All controllers make rounds, and a kubelet makes turns.
ghost use Rattle.std.specs.Prelude.{◌≡◌, length, IfOk};
ghost use Rattle.std.specs.List.{range_with_len};
ghost use Rattle.objects.specs.declared.kind.Kind.TheVariants.{Pod};
ghost use Rattle.requests.specs.declared.request.Request.TheVariants as request;
ghost use Rattle.cluster_runs.specs.Leading.{GoesAlong};
ghost use Rattle.cluster_runs.specs.Shown.{IsConsistent};
ghost use Rattle.cluster_runs.specs.Turns.{asked_all, asked_as, ends_with, kubelet_turn, nothing, rounds_of, settled, settled_as, settled_once, tended, tends};

use crate::cluster::Cluster;
use crate::fault::ClusterFault;
use objects::{Kind, Memory, Text};
use requests::{Reply, Request};
use rounds::{ControlLoop, turn_requests};
use std::alloc::Global;

/// A list of the pods of a namespace, as they are now.
fn list_of_pods(alloc: Global, namespace: &Text) -> Result<Request, Memory>
    ensures { IfOk result (λ r. r ≡ request.List Pod namespace.now 0) }
{
    Ok(Request::List {
        kind: Kind::Pod,
        namespace: Text::copy_of(alloc, namespace.as_str())?,
        exact: 0,
    })
}

/// What the kubelet sends after a list.
fn requests_after(alloc: Global, delivered: &Option<Reply>) -> Result<Vec<Request>, Memory>
    ensures { IfOk result (λ requests. requests.items ≡ tends delivered.now) }
{
    match delivered {
        Some(
            Reply::Listed {
                objects,
                revision: _,
            },
        ) => turn_requests(alloc, objects.as_slice()),
        _ => Ok(Vec::new(alloc)),
    }
}

impl Cluster {
    /// So many times, each controller makes a round, and then the kubelet, if there is one, makes a turn.
    pub(crate) fn settle<C: ControlLoop>(
        &mut self,
        controllers: &mut [C],
        kubelet: Option<u64>,
        namespaces: &[Text],
        rounds: u64,
    ) -> Result<(), ClusterFault>
        requires { IsConsistent controllers.old self.old }
        ensures { GoesAlong C.reconciler C.phase C.is_waiting
            (settled kubelet rounds namespaces.now) (λ done. nothing) self.old self.new controllers.old controllers.new result }
    {
        match kubelet {
            Some(kubelet) => self.settle_as(controllers, kubelet, namespaces, rounds),
            None => Ok(()),
        }
    }

    fn settle_as<C: ControlLoop>(
        &mut self,
        controllers: &mut [C],
        kubelet: u64,
        namespaces: &[Text],
        rounds: u64,
    ) -> Result<(), ClusterFault>
        requires { IsConsistent controllers.old self.old }
        ensures { GoesAlong C.reconciler C.phase C.is_waiting
            (settled_as rounds kubelet namespaces.now) (λ done. nothing) self.old self.new controllers.old controllers.new result }
    {
        for _ in 0..rounds {
            self.settle_once(controllers, kubelet, namespaces)?;
        }
        Ok(())
    }

    fn settle_once<C: ControlLoop>(
        &mut self,
        controllers: &mut [C],
        kubelet: u64,
        namespaces: &[Text],
    ) -> Result<(), ClusterFault>
        requires { IsConsistent controllers.old self.old }
        ensures { GoesAlong C.reconciler C.phase C.is_waiting
            (settled_once kubelet namespaces.now) (λ done. nothing) self.old self.new controllers.old controllers.new result }
    {
        self.make_rounds(controllers)?;
        self.make_turn(controllers, kubelet, namespaces)
    }

    /// Each controller makes a round, in the order of the numbers.
    fn make_rounds<C: ControlLoop>(&mut self, controllers: &mut [C]) -> Result<(), ClusterFault>
        requires { IsConsistent controllers.old self.old }
        ensures { GoesAlong C.reconciler C.phase C.is_waiting
            (rounds_of (range_with_len 0 (length controllers.old))) (λ done. nothing) self.old self.new controllers.old controllers.new result }
    {
        for number in 0..controllers.len() {
            self.make_round(controllers, number)?;
        }
        Ok(())
    }

    /// The kubelet's turn: a request that is still open is continued, and then the pods of each namespace are tended.
    fn make_turn<C: ControlLoop>(
        &mut self,
        controllers: &mut [C],
        caller: u64,
        namespaces: &[Text],
    ) -> Result<(), ClusterFault>
        requires { IsConsistent controllers.old self.old }
        ensures { GoesAlong C.reconciler C.phase C.is_waiting
            (kubelet_turn caller namespaces.now) (λ done. nothing) self.old self.new controllers.old controllers.new result }
    {
        let delivered = self.carry(controllers, caller)?;
        drop(delivered);
        for namespace in namespaces {
            self.tend(controllers, caller, namespace)?;
        }
        Ok(())
    }

    /// Lists the pods of the namespace, and sends what the kubelet requests for them.
    fn tend<C: ControlLoop>(
        &mut self,
        controllers: &mut [C],
        caller: u64,
        namespace: &Text,
    ) -> Result<(), ClusterFault>
        requires { IsConsistent controllers.old self.old }
        ensures { GoesAlong C.reconciler C.phase C.is_waiting
            (tended caller namespace.now) (λ done. nothing) self.old self.new controllers.old controllers.new result }
    {
        let alloc = *self.events.allocator();
        let list = list_of_pods(alloc, namespace)?;
        let listed = self.ask(controllers, caller, &list);
        drop(list);
        let delivered = listed?;
        let requests = requests_after(alloc, &delivered);
        drop(delivered);
        let requests = requests?;
        let asked = self.ask_all(controllers, caller, requests.as_slice());
        drop(requests);
        asked
    }

    /// Another client sends these requests, one after another.
    fn ask_all<C: ControlLoop>(
        &mut self,
        controllers: &mut [C],
        caller: u64,
        requests: &[Request],
    ) -> Result<(), ClusterFault>
        requires { IsConsistent controllers.old self.old }
        ensures { GoesAlong C.reconciler C.phase C.is_waiting
            (asked_all caller requests.now) (λ done. nothing) self.old self.new controllers.old controllers.new result }
    {
        for request in requests {
            let delivered = self.ask(controllers, caller, request)?;
            drop(delivered);
        }
        Ok(())
    }

    /// Another client sends a request, if its caller is idle.
    pub(crate) fn ask<C: ControlLoop>(
        &mut self,
        controllers: &mut [C],
        caller: u64,
        request: &Request,
    ) -> Result<Option<Reply>, ClusterFault>
        requires { IsConsistent controllers.old self.old }
        ensures { GoesAlong C.reconciler C.phase C.is_waiting
            (asked_as caller request.now) ends_with self.old self.new controllers.old controllers.new result }
    {
        if !self.replay.idle(caller) {
            return Ok(None);
        }
        self.outside(controllers, caller, request)?;
        self.carry(controllers, caller)
    }
}
