ghost use Rattle.std.specs.Prelude.{◌≡◌, ◌<◌, ◌&&◌, ◌++◌, ◌∷◌, [], List, length, IfOk, IfErr, IfSome, OnErr, OnOk, IsErrOf, Some};
ghost use Rattle.interleavings.specs.declared.event.Event.{Event};
ghost use Rattle.interleavings.specs.declared.event.Event.TheVariants as event;
ghost use Rattle.interleavings.specs.World.{Size};
ghost use Rattle.history.specs.After.{IsAfter, IsReplyTo};
ghost use Rattle.history.specs.Named.{callers};
ghost use Rattle.interleavings.specs.Callers.{named_by};
ghost use Rattle.cluster_runs.specs.declared.event.ClusterEvent.TheVariants.{Next, Outside, Step, Crash};
ghost use Rattle.cluster_runs.specs.Cluster.{controller_at, hand_if, is_nobody, is_used, with_outside};
ghost use Rattle.cluster_runs.specs.Faults.{IsShort};
ghost use Rattle.cluster_runs.specs.Shown.{Applies, Becomes, Follows, Hands, Hears, IsConsistent, Overfills, Stay, Tells};
ghost use Rattle.cluster_runs.specs.declared.fault.ClusterFault.TheVariants.{Memory as OutOfMemory};

use crate::cluster::Cluster;
use crate::event::ClusterEvent;
use crate::fault::ClusterFault;
use interleavings::Event;
use requests::{Reply, Request};
use rounds::ControlLoop;

impl Cluster {
    /// Applies one event. An event that is not enabled changes nothing. At a fault the controllers stay where they
    /// were.
    pub(crate) fn apply_event<C: ControlLoop>(
        &mut self,
        controllers: &mut [C],
        event: &ClusterEvent,
    ) -> Result<(), ClusterFault>
        requires { IsConsistent controllers.old self.old }
        ensures { Applies C.reconciler C.phase C.is_waiting event.now self.old self.new controllers.old controllers.new result }
    {
        match event {
            ClusterEvent::Next(number) => {
                if *number < controllers.len() {
                    return self.call_next(controllers, *number);
                }
                Ok(())
            }
            ClusterEvent::Outside(caller, request) => self.outside(controllers, *caller, request),
            ClusterEvent::Step(event) => self.step(controllers, event),
            ClusterEvent::Crash(number) => {
                if *number < controllers.len() {
                    return self.crash(controllers, *number);
                }
                Ok(())
            }
        }
    }

    /// The controller calls its next request, if its caller is idle.
    pub(crate) fn call_next<C: ControlLoop>(
        &mut self,
        controllers: &mut [C],
        number: usize,
    ) -> Result<(), ClusterFault>
        requires consistent { IsConsistent controllers.old self.old }
        requires there { number < length controllers.old }
        ensures { Applies C.reconciler C.phase C.is_waiting (Next number) self.old self.new controllers.old controllers.new result }
    {
        let caller = self.callers.present[number];
        if !self.replay.idle(caller) {
            return Ok(());
        }
        let request = controllers[number].next()?;
        self.forward_quietly(Event::Call(caller, request))
    }

    /// Another client calls.
    pub(crate) fn outside<C: ControlLoop>(
        &mut self,
        controllers: &mut [C],
        caller: u64,
        request: &Request,
    ) -> Result<(), ClusterFault>
        requires { IsConsistent controllers.old self.old }
        ensures { Applies C.reconciler C.phase C.is_waiting (Outside caller request.now) self.old self.new controllers.old controllers.new result }
    {
        // Only for the contract, which is about the controllers; it costs nothing.
        let _ = controllers.len();
        self.call_outside(caller, request)
    }

    /// Another client calls, as a caller that no controller is or was.
    fn call_outside(&mut self, caller: u64, request: &Request) -> Result<(), ClusterFault>
        requires { Follows self.old }
        ensures present { self.new.callers.present ≡ self.old.callers.present }
        ensures follows { OnOk result (Follows self.new) }
        ensures shows { OnOk result (Becomes (λ k. with_outside k caller request.now (k.incarnations caller)) self.old self.new) }
        ensures too_many { IsErrOf result ClusterFault.TooManyCallers → Overfills (λ k. with_outside k caller request.now (k.incarnations caller)) self.old }
        ensures reasons { IfErr result IsShort }
    {
        if self.callers.is_controllers(caller) {
            return Ok(());
        }
        self.callers.admit(caller)?;
        let request = request.clone()?;
        self.forward_quietly(Event::Call(caller, request))
    }

    /// The controller forgets its round, and continues as another caller. It does so once the other caller is there, so
    /// that at a fault it stays where it was.
    fn crash<C: ControlLoop>(
        &mut self,
        controllers: &mut [C],
        number: usize,
    ) -> Result<(), ClusterFault>
        requires consistent { IsConsistent controllers.old self.old }
        requires there { number < length controllers.old }
        ensures { Applies C.reconciler C.phase C.is_waiting (Crash number) self.old self.new controllers.old controllers.new result }
    {
        let caller = self.callers.present[number];
        self.callers.renew(number)?;
        self.forward_quietly(Event::Crash(caller))?;
        controllers[number].crash();
        Ok(())
    }

    /// A step of the store.
    pub(crate) fn step<C: ControlLoop>(
        &mut self,
        controllers: &mut [C],
        event: &Event,
    ) -> Result<(), ClusterFault>
        requires { IsConsistent controllers.old self.old }
        ensures { Applies C.reconciler C.phase C.is_waiting (Step event.now) self.old self.new controllers.old controllers.new result }
    {
        match event {
            Event::Call(_, _) => Ok(()),
            Event::Raise => self.forward_quietly(Event::Raise),
            Event::Check(caller) => self.forward_if_known(*caller, Event::Check(*caller)),
            Event::Reserve(caller) => self.forward_if_known(*caller, Event::Reserve(*caller)),
            Event::Publish(caller) => self.forward_if_known(*caller, Event::Publish(*caller)),
            Event::Read(caller) => self.forward_if_known(*caller, Event::Read(*caller)),
            Event::ReadAt(caller) => self.forward_if_known(*caller, Event::ReadAt(*caller)),
            Event::Compact(caller) => self.forward_if_known(*caller, Event::Compact(*caller)),
            Event::Part(caller) => self.forward_if_known(*caller, Event::Part(*caller)),
            Event::Reply(caller) => self.reply(controllers, *caller),
            Event::Crash(caller) => self.crash_outside(*caller),
        }
    }

    /// A caller that was used gets its reply. If it is a controller's caller, the controller handles the reply.
    fn reply<C: ControlLoop>(
        &mut self,
        controllers: &mut [C],
        caller: u64,
    ) -> Result<(), ClusterFault>
        requires { IsConsistent controllers.old self.old }
        ensures { Applies C.reconciler C.phase C.is_waiting (Step (event.Reply caller)) self.old self.new controllers.old controllers.new result }
    {
        match self.deliver_reply(controllers, caller) {
            Ok(delivered) => {
                drop(delivered);
                Ok(())
            }
            Err(fault) => Err(fault),
        }
    }

    /// The same, and returns the reply.
    pub(crate) fn deliver_reply<C: ControlLoop>(
        &mut self,
        controllers: &mut [C],
        caller: u64,
    ) -> Result<Option<Reply>, ClusterFault>
        requires { IsConsistent controllers.old self.old }
        ensures applies { Applies C.reconciler C.phase C.is_waiting (Step (event.Reply caller)) self.old self.new controllers.old controllers.new result }
        ensures delivered { IfOk result (λ delivered. Tells C.reconciler C.phase C.is_waiting caller delivered self.old controllers.old) }
    {
        if !self.callers.is_used(caller) {
            return Ok(None);
        }
        let controller = self.callers.controller_at(caller);
        let delivered = self.forward(Event::Reply(caller))?;
        let heard = on_reply(controllers, controller, &delivered);
        match heard {
            Ok(()) => Ok(delivered),
            Err(fault) => {
                drop(delivered);
                Err(fault)
            }
        }
    }

    /// A step of a caller that was used.
    fn forward_if_known(&mut self, caller: u64, event: Event) -> Result<(), ClusterFault>
        requires named { named_by event ≡ Some caller }
        requires follows { Follows self.old }
        ensures present { self.new.callers ≡ self.old.callers }
        ensures follows { OnOk result (Follows self.new) }
        ensures shows { OnOk result (Becomes (λ k. hand_if (is_used k caller) k event) self.old self.new) }
        ensures too_many { IsErrOf result ClusterFault.TooManyCallers → Overfills (λ k. hand_if (is_used k caller) k event) self.old }
        ensures reasons { IfErr result IsShort }
    {
        if self.callers.is_used(caller) {
            return self.forward_quietly(event);
        }
        drop(event);
        Ok(())
    }

    /// A caller that was used, and that is no controller's now, crashes.
    fn crash_outside(&mut self, caller: u64) -> Result<(), ClusterFault>
        requires { Follows self.old }
        ensures present { self.new.callers ≡ self.old.callers }
        ensures follows { OnOk result (Follows self.new) }
        ensures shows { OnOk result (Becomes (λ k. hand_if (is_used k caller && is_nobody (controller_at k caller)) k (event.Crash caller)) self.old self.new) }
        ensures too_many { IsErrOf result ClusterFault.TooManyCallers
            → Overfills (λ k. hand_if (is_used k caller && is_nobody (controller_at k caller)) k (event.Crash caller)) self.old }
        ensures reasons { IfErr result IsShort }
    {
        if self.callers.controller_at(caller).is_some() {
            return Ok(());
        }
        self.forward_if_known(caller, Event::Crash(caller))
    }

    /// Passes an event on to the store, and drops its reply.
    fn forward_quietly(&mut self, event: Event) -> Result<(), ClusterFault>
        requires { Follows self.old }
        ensures callers { self.new.callers ≡ self.old.callers }
        ensures follows { OnOk result (Follows self.new) }
        ensures hands { OnOk result (Hands event self.old self.new) }
        ensures too_many { IsErrOf result ClusterFault.TooManyCallers → (size : Size) (events : List Event)
            → IsAfter size events self.old.replay → 4096 < callers (events ++ event ∷ []) }
        ensures reasons { IfErr result IsShort }
    {
        drop(self.forward(event)?);
        Ok(())
    }

    /// Passes an event on to the store, and returns the reply that it gives, if any.
    fn forward(&mut self, event: Event) -> Result<Option<Reply>, ClusterFault>
        requires { Follows self.old }
        ensures callers { self.new.callers ≡ self.old.callers }
        ensures follows { OnOk result (Follows self.new) }
        ensures hands { OnOk result (Hands event self.old self.new) }
        ensures delivered { IfOk result (λ delivered. (size : Size) (events : List Event)
            → IsAfter size events self.old.replay → IsReplyTo size events event delivered) }
        ensures too_many { IsErrOf result ClusterFault.TooManyCallers → (size : Size) (events : List Event)
            → IsAfter size events self.old.replay → 4096 < callers (events ++ event ∷ []) }
        ensures reasons { IfErr result IsShort }
    {
        if self.events.reserve(1).is_err() {
            drop(event);
            return Err(ClusterFault::Memory);
        }
        match self.replay.step(&event) {
            Ok(delivered) => {
                self.events.push_reserved(event);
                Ok(delivered)
            }
            Err(error) => {
                drop(event);
                Err(ClusterFault::from(error))
            }
        }
    }
}

/// The controller with this number handles the reply.
fn on_reply<C: ControlLoop>(
    controllers: &mut [C],
    number: Option<usize>,
    delivered: &Option<Reply>,
) -> Result<(), ClusterFault>
    requires { IfSome number (λ c. c < length controllers.old) }
    ensures many { length controllers.new ≡ length controllers.old }
    ensures hears { OnOk result (Hears C.reconciler C.phase C.is_waiting controllers.old controllers.new number delivered.now) }
    ensures stays { OnErr result (Stay C.reconciler C.phase controllers.old controllers.new) }
    ensures memory { IfErr result (λ reason. reason ≡ OutOfMemory) }
{
    let Some(number) = number else {
        return Ok(());
    };
    let Some(reply) = delivered else {
        return Ok(());
    };
    controllers[number].take(reply)?;
    Ok(())
}
