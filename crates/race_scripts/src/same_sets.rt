// Whether a script names the sets of a race.
ghost use Rattle.std.specs.Prelude.{◌≡◌, option_map};
ghost use Rattle.race_scripts.specs.Leading.{again_behind, are_sets_of, same_set, set_behind, sets_behind};

use controllers::SetSpec;
use participants::Participant;

/// Whether these are the sets of the controllers, in their order: that of one that may crash twice.
pub(crate) fn are_sets_of(participants: &[Participant], sets: &[SetSpec]) -> bool
    ensures { result ≡ are_sets_of participants.now sets.now }
{
    let mut left = sets;
    for participant in participants {
        let Some(behind) = sets_behind(participant, left) else {
            return false;
        };
        left = behind;
    }
    left.is_empty()
}

/// What is left behind the sets of one who races, if they come first.
fn sets_behind<'s>(participant: &Participant, sets: &'s [SetSpec]) -> Option<&'s [SetSpec]>
    ensures { option_map (λ s. s.now) result ≡ sets_behind participant.now sets.now }
{
    match participant {
        Participant::Controller {
            set,
            rounds: _,
            may_crash,
            spares_reads: _,
        } => again_behind(set, *may_crash, set_behind(set, sets)?),
        Participant::Caller(_)
        | Participant::Kubelet {
            namespace: _,
            turns: _,
            may_crash: _,
        } => Some(sets),
    }
}

/// The same for that set once more, if its controller may crash.
fn again_behind<'s>(set: &SetSpec, may_crash: bool, sets: &'s [SetSpec]) -> Option<&'s [SetSpec]>
    ensures { option_map (λ s. s.now) result ≡ again_behind set.now may_crash sets.now }
{
    if may_crash {
        set_behind(set, sets)
    } else {
        Some(sets)
    }
}

/// The same for one set.
fn set_behind<'s>(set: &SetSpec, sets: &'s [SetSpec]) -> Option<&'s [SetSpec]>
    ensures { option_map (λ s. s.now) result ≡ set_behind set.now sets.now }
{
    let (first, behind) = sets.split_first()?;
    if same_set(set, first) {
        Some(behind)
    } else {
        None
    }
}

fn same_set(left: &SetSpec, right: &SetSpec) -> bool
    ensures { result ≡ same_set left.now right.now }
{
    left.namespace == right.namespace
        && left.name == right.name
        && left.digits == right.digits
        && left.moment == right.moment
}
