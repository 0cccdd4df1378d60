ghost use Rattle.std.specs.Prelude.{◌≡◌, ◌≤◌, ◌<◌, true, false, length, IfOk, None, option_map};
ghost use Rattle.objects.specs.Key.{key_parts};
ghost use Rattle.objects.specs.Names.{is_dns_label};
ghost use Rattle.objects.specs.declared.kind.Kind.TheVariants as kinds;
ghost use Rattle.rounds.specs.Phase.{reading_set};

use crate::progress::Progress;
use objects::{Key, Kind, Memory, Text};
use sets::PlanError;
use std::alloc::Global;
use std::mem;

/// The controller of one StatefulSet: it makes one round after another, one request at a time (Kubernetes,
/// "Controllers").
#[derive(Drop)]
pub struct Controller {
    pub(crate) set: Key,
    pub(crate) digits: usize,
    pub(crate) moment: Text,
    pub(crate) progress: Progress,
    pub(crate) waits: bool,
    pub(crate) refusal: Option<PlanError>,
    pub(crate) alloc: Global,
    ghost some: { 1 ≤ digits },
    ghost most: { digits ≤ 64 },
}

impl Controller {
    ghost use Rattle.controllers.specs.Controller.{is_waiting, phase_of, reconciler_of, refusal_of, refusals_of, refusals_with};
    ghost use Rattle.controllers.specs.Reconciler.{reconciler_with};

    /// The controller of the set with that namespace and name. The names of new revisions have that many digits, and
    /// pods are marked for deletion with that moment. It will read its set first, waits for no reply, and has no
    /// refused plan.
    #[tactic(auto, unfolding(crate::specs::Controller::reconciler_of, crate::specs::Controller::phase_of, crate::specs::Controller::is_waiting, crate::specs::Controller::refusal_of, crate::specs::Controller::refusals_of, crate::specs::Progress::phase_at))]
    pub fn new(
        alloc: Global,
        namespace: &str,
        name: &str,
        digits: usize,
        moment: &str,
    ) -> Result<Controller, Memory>
        requires namespace { is_dns_label namespace.now ≡ true }
        requires name { is_dns_label name.now ≡ true }
        requires some { 1 ≤ digits }
        requires most { digits ≤ 64 }
        requires moment { 0 < length moment.now }
        ensures reconciler { IfOk result (λ c. reconciler_of c ≡ reconciler_with (key_parts kinds.StatefulSet namespace.now name.now) digits moment.now) }
        ensures phase { IfOk result (λ c. phase_of c ≡ reading_set) }
        ensures idle { IfOk result (λ c. is_waiting c ≡ false) }
        ensures refusal { IfOk result (λ c. refusal_of c ≡ None) }
        ensures refusals { IfOk result (λ c. refusals_of c ≡ refusals_with digits moment.now) }
    {
        let namespace = Text::copy_of(alloc, namespace)?;
        let name = Text::copy_of(alloc, name)?;
        let moment = Text::copy_of(alloc, moment)?;
        let set = Key {
            kind: Kind::StatefulSet,
            namespace,
            name,
        };
        Ok(Controller {
            set,
            digits,
            moment,
            progress: Progress::ReadingSet,
            waits: false,
            refusal: None,
            alloc,
        })
    }

    /// Forgets its round, and why its last plan was refused. What it is made of stays.
    #[tactic(auto, unfolding(crate::specs::Controller::reconciler_of, crate::specs::Controller::phase_of, crate::specs::Controller::is_waiting, crate::specs::Controller::refusal_of, crate::specs::Controller::refusals_of, crate::specs::Progress::phase_at))]
    pub fn crash(&mut self)
        ensures phase { phase_of self.new ≡ reading_set }
        ensures idle { is_waiting self.new ≡ false }
        ensures refusal { refusal_of self.new ≡ None }
        ensures reconciler { reconciler_of self.new ≡ reconciler_of self.old }
        ensures refusals { refusals_of self.new ≡ refusals_of self.old }
    {
        drop(mem::replace(&mut self.progress, Progress::ReadingSet));
        self.waits = false;
        self.refusal = None;
    }

    /// Why its last plan was refused, unless one has been made since, or it has crashed.
    #[tactic(auto, unfolding(crate::specs::Controller::refusal_of))]
    pub fn last_refusal(&self) -> Option<&PlanError>
        ensures { option_map (λ e. e.now) result ≡ refusal_of self.now }
    {
        self.refusal.as_ref()
    }
}
