// A request is stepped on to its reply.
ghost use Rattle.std.specs.Prelude.{◌≡◌, ℕ, suc, IfOk, IfErr};
ghost use Rattle.cluster_runs.specs.Leading.{GoesAlong, Halts, Leads, after_step};
ghost use Rattle.cluster_runs.specs.Shown.{IsConsistent, StaysConsistent};
ghost use Rattle.cluster_runs.specs.Turns.{Course, carried, carried_in, ends_with, reply_of, run_of, step_by};

use crate::cluster::Cluster;
use crate::fault::ClusterFault;
use interleavings::Event;
use requests::Reply;
use rounds::ControlLoop;

/// No request needs more steps.
const MOST_STEPS: u64 = 2_097_152;

/// What a step leaves to do for a caller.
#[derive(Drop)]
pub(crate) enum Advance {
    /// There may be another step.
    On,
    /// There is no further step: this was the reply, or no step helps.
    Over(Option<Reply>),
}

/// The caller that the event replies to, if it is a reply.
fn reply_of(event: &Event) -> Option<u64>
    ensures { result ≡ reply_of event.now }
{
    match event {
        Event::Reply(caller) => Some(*caller),
        _ => None,
    }
}

impl Cluster {
    /// The steps that bring the controller's open request to its reply.
    pub(crate) fn run<C: ControlLoop>(
        &mut self,
        controllers: &mut [C],
        number: usize,
    ) -> Result<Option<Reply>, ClusterFault>
        requires { IsConsistent controllers.old self.old }
        ensures { GoesAlong C.reconciler C.phase C.is_waiting (run_of number) ends_with self.old self.new controllers.old controllers.new result }
    {
        if number < controllers.len() {
            let caller = self.callers.present[number];
            return self.carry(controllers, caller);
        }
        Ok(None)
    }

    /// The steps that bring the caller's open request to its reply, and the reply.
    pub(crate) fn carry<C: ControlLoop>(
        &mut self,
        controllers: &mut [C],
        caller: u64,
    ) -> Result<Option<Reply>, ClusterFault>
        requires { IsConsistent controllers.old self.old }
        ensures { GoesAlong C.reconciler C.phase C.is_waiting (carried caller) ends_with self.old self.new controllers.old controllers.new result }
    {
        for _ in 0..MOST_STEPS {
            let went = self.advance(controllers, caller)?;
            match went {
                Advance::On => {}
                Advance::Over(delivered) => return Ok(delivered),
            }
        }
        Ok(None)
    }

    /// The next of these steps.
    fn advance<C: ControlLoop>(
        &mut self,
        controllers: &mut [C],
        caller: u64,
    ) -> Result<Advance, ClusterFault>
        requires { IsConsistent controllers.old self.old }
        ensures consistent { StaysConsistent self.old self.new controllers.old controllers.new result }
        ensures leads { IfOk result (λ went. (steps : ℕ) → Leads C.reconciler C.phase C.is_waiting (carried_in (suc steps) caller)
            (after_step went (carried_in steps caller)) self.old self.new controllers.old controllers.new) }
        ensures halts { IfErr result (λ fault. (steps : ℕ) → Halts C.reconciler C.phase C.is_waiting fault (carried_in (suc steps) caller)
            self.old controllers.old controllers.new) }
    {
        let Some(event) = self.replay.next_step(caller) else {
            return Ok(Advance::Over(None));
        };
        let went = self.make(controllers, &event);
        drop(event);
        went
    }

    /// Makes that step.
    fn make<C: ControlLoop>(
        &mut self,
        controllers: &mut [C],
        event: &Event,
    ) -> Result<Advance, ClusterFault>
        requires { IsConsistent controllers.old self.old }
        ensures consistent { StaysConsistent self.old self.new controllers.old controllers.new result }
        ensures leads { IfOk result (λ went. (next : Course) → Leads C.reconciler C.phase C.is_waiting (step_by event.now (reply_of event.now) next)
            (after_step went next) self.old self.new controllers.old controllers.new) }
        ensures halts { IfErr result (λ fault. (next : Course) → Halts C.reconciler C.phase C.is_waiting fault
            (step_by event.now (reply_of event.now) next) self.old controllers.old controllers.new) }
    {
        let Some(caller) = reply_of(event) else {
            self.step(controllers, event)?;
            return Ok(Advance::On);
        };
        let delivered = self.deliver_reply(controllers, caller)?;
        Ok(Advance::Over(delivered))
    }
}
