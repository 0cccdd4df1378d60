// A controller of a StatefulSet as one of `rounds`: its phases, and what its reconciler is.
use crate::controller::Controller;
use objects::Memory;
use requests::{Reply, Request};
use rounds::ControlLoop;

impl ControlLoop for Controller {
    ghost use Rattle.controllers.specs.Controller.{is_waiting, phase_of, reconciler_of};

    ghost reconciler = { reconciler_of };

    ghost phase = { phase_of };

    ghost is_waiting = { is_waiting };

    fn next(&mut self) -> Result<Request, Memory> {
        Controller::next(self)
    }

    fn take(&mut self, reply: &Reply) -> Result<(), Memory> {
        Controller::take(self, reply)
    }

    fn crash(&mut self) {
        Controller::crash(self);
    }
}
