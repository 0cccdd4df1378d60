// Who is who in the script of a race.
use participants::Participant;
use std::alloc::{AllocError, Global};

/// Whom a script names: a controller of its first line, or a caller.
#[derive(Clone, Copy, PartialEq, Eq)]
pub(crate) enum Seat {
    Controller(u64),
    Caller(u64),
}

/// The seats of a race: of each participant before and after its crash, and the caller that sends the beginning and
/// looks in the end.
#[derive(Drop)]
pub(crate) struct Seats {
    pub firsts: Vec<Seat>,
    pub seconds: Vec<Seat>,
    pub looker: u64,
}

impl Seats {
    /// The seat of a participant, before or after its crash.
    pub(crate) fn seat(&self, participant: usize, crashed: bool) -> Seat {
        let seats = if crashed { &self.seconds } else { &self.firsts };
        seats
            .get(participant)
            .copied()
            .unwrap_or(Seat::Caller(self.looker))
    }
}

/// The number of a controller or of a caller.
pub(crate) fn number_of(seat: Seat) -> u64 {
    match seat {
        Seat::Controller(number) | Seat::Caller(number) => number,
    }
}

/// Controllers have the numbers from 0, one that may crash two of them. A caller keeps its number, unless a controller
/// has it; kubelets and the looker get numbers that nobody has.
pub(crate) fn seats_of(
    alloc: Global,
    participants: &[Participant],
    callers: &[Option<u64>],
) -> Result<Seats, AllocError> {
    let controllers = controllers_of(participants);
    let looker = unused(callers, controllers);
    let mut firsts = Vec::new(alloc);
    let mut seconds = Vec::new(alloc);
    let mut controller: u64 = 0;
    let mut next = looker.saturating_add(1);
    for number in 0..participants.len() {
        let own = match callers.get(number) {
            Some(own) => *own,
            None => None,
        };
        let first = first_seat(
            &participants[number],
            own,
            controllers,
            controller,
            callers,
            next,
        );
        let second = second_seat(&participants[number], controller, callers, first);
        firsts.push(first)?;
        seconds.push(second)?;
        controller = controller.saturating_add(numbers_of(&participants[number]));
        next = behind(next, first, second);
    }
    Ok(Seats {
        firsts,
        seconds,
        looker,
    })
}

fn first_seat(
    participant: &Participant,
    own: Option<u64>,
    controllers: u64,
    controller: u64,
    callers: &[Option<u64>],
    next: u64,
) -> Seat {
    match participant {
        Participant::Controller {
            set: _,
            rounds: _,
            may_crash: _,
            spares_reads: _,
        } => Seat::Controller(controller),
        _ => match own {
            Some(number) if controllers <= number => Seat::Caller(number),
            _ => Seat::Caller(unused(callers, next)),
        },
    }
}

fn second_seat(
    participant: &Participant,
    controller: u64,
    callers: &[Option<u64>],
    first: Seat,
) -> Seat {
    match participant {
        Participant::Controller {
            set: _,
            rounds: _,
            may_crash: _,
            spares_reads: _,
        } => Seat::Controller(controller.saturating_add(1)),
        Participant::Kubelet {
            namespace: _,
            turns: _,
            may_crash: _,
        } => match first {
            Seat::Caller(number) => Seat::Caller(unused(callers, number.saturating_add(1))),
            Seat::Controller(number) => Seat::Controller(number),
        },
        Participant::Caller(_) => first,
    }
}

/// The lowest number above those that were given.
fn behind(next: u64, first: Seat, second: Seat) -> u64 {
    above(above(next, first), second)
}

fn above(next: u64, seat: Seat) -> u64 {
    match seat {
        Seat::Caller(number) if next <= number => number.saturating_add(1),
        _ => next,
    }
}

/// The lowest number from this one on that no caller has.
fn unused(callers: &[Option<u64>], from: u64) -> u64 {
    let mut number = from;
    for _ in 0..callers.len() {
        if callers.contains(&Some(number)) {
            number = number.saturating_add(1);
        }
    }
    number
}

/// How many controllers a script of these has: one that may crash has a number before the crash, and one after it.
fn controllers_of(participants: &[Participant]) -> u64 {
    let mut count: u64 = 0;
    for participant in participants {
        count = count.saturating_add(numbers_of(participant));
    }
    count
}

fn numbers_of(participant: &Participant) -> u64 {
    match participant {
        Participant::Controller {
            set: _,
            rounds: _,
            may_crash,
            spares_reads: _,
        } => { if *may_crash { 2 } else { 1 } }
        _ => 0,
    }
}
