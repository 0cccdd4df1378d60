// What is sent in an order of a race.
ghost use Rattle.race_scripts.specs.Play.{AreOnTheWay};
ghost use Rattle.std.specs.Prelude.{IfOk};

use crate::fault::ScriptingError;
use crate::team::Team;
use explorer::{Move, Race};
use objects::Memory;
use participants::Participant;
use plain_store::{PlainError, Trees};
use requests::{Reply, Request};
use std::alloc::Global;
use std::mem;

/// A request that is sent.
#[derive(Drop)]
pub(crate) struct Sending {
    pub request: Request,
    /// Whether its caller crashes within it.
    pub crashes: bool,
    pub outcome: Outcome,
}

/// What becomes of a request.
#[derive(Clone, Copy, Drop)]
pub(crate) struct Outcome {
    pub effect: Effect,
    /// How many reads the sender leaves out behind it.
    pub reads_left_out: usize,
}

/// What a request does to the store.
#[derive(Clone, Copy, PartialEq, Eq, Drop)]
pub(crate) enum Effect {
    Nothing,
    /// It draws a revision.
    Write,
    Compaction,
}

/// What is sent in an order.
#[derive(Drop)]
pub(crate) struct Play {
    /// By each move: what an `Ask` sends, and a `Crash` has called before.
    pub sent: Vec<Option<Sending>>,
    /// For each participant the request within which it crashes, if the order leaves that out.
    pub left_out: Vec<Option<Request>>,
}

/// The participants on their way, the request that each called before its crash, and the store.
#[derive(Drop)]
struct Player {
    team: Team,
    late: Vec<Option<Request>>,
    store: Trees,
}

/// What is sent in that order.
pub(crate) fn played(alloc: Global, race: &Race, order: &[Move]) -> Result<Play, ScriptingError> {
    let mut player = player_of(alloc, race)?;
    let play = play_on(alloc, race.participants.as_slice(), order, &mut player);
    drop(player);
    Ok(play?)
}

fn player_of(alloc: Global, race: &Race) -> Result<Player, ScriptingError>
    ensures { IfOk result (λ player. AreOnTheWay player.team.replies player.team.stands.items) }
{
    let late = no_requests(alloc, race.participants.len())?;
    let store = store_of(alloc, race)?;
    let team = Team::new(alloc, race.participants.as_slice())?;
    Ok(Player { team, late, store })
}

fn no_requests(alloc: Global, count: usize) -> Result<Vec<Option<Request>>, Memory> {
    let mut none = Vec::new(alloc);
    for _ in 0..count {
        none.push(None)?;
    }
    Ok(none)
}

/// The store that the beginning leaves.
fn store_of(alloc: Global, race: &Race) -> Result<Trees, ScriptingError> {
    let mut store = match Trees::new(alloc, race.capacity) {
        Ok(store) => store,
        Err(PlainError::BadCapacity) => return Err(ScriptingError::NoScript),
    };
    match pass(&mut store, race.beginning.as_slice()) {
        Ok(()) => Ok(store),
        Err(error) => {
            drop(store);
            Err(ScriptingError::from(error))
        }
    }
}

fn pass(store: &mut Trees, requests: &[Request]) -> Result<(), Memory> {
    for request in requests {
        drop(store.take(request.clone()?)?);
    }
    Ok(())
}

fn play_on(
    alloc: Global,
    participants: &[Participant],
    order: &[Move],
    player: &mut Player,
) -> Result<Play, Memory>
    requires { AreOnTheWay player.old.team.replies player.old.team.stands.items }
{
    let sent = player.sent(alloc, participants, order)?;
    let left_out = player.left_out(alloc, participants)?;
    Ok(Play { sent, left_out })
}

impl Player {
    fn sent(
        &mut self,
        alloc: Global,
        participants: &[Participant],
        order: &[Move],
    ) -> Result<Vec<Option<Sending>>, Memory>
        requires { AreOnTheWay self.old.team.replies self.old.team.stands.items }
        ensures { AreOnTheWay self.new.team.replies self.new.team.stands.items }
    {
        let mut sent = Vec::new(alloc);
        for happens in order {
            let sending = self.make(alloc, participants, *happens)?;
            sent.push(sending)?;
        }
        Ok(sent)
    }

    fn make(
        &mut self,
        alloc: Global,
        participants: &[Participant],
        happens: Move,
    ) -> Result<Option<Sending>, Memory>
        requires { AreOnTheWay self.old.team.replies self.old.team.stands.items }
        ensures { AreOnTheWay self.new.team.replies self.new.team.stands.items }
    {
        match happens {
            Move::Ask(number) => self.ask(alloc, participants, number),
            Move::Crash(number) => self.crash(alloc, participants, number),
            Move::Late(number) => {
                self.carry_out(number)?;
                Ok(None)
            }
        }
    }

    fn ask(
        &mut self,
        alloc: Global,
        participants: &[Participant],
        number: usize,
    ) -> Result<Option<Sending>, Memory>
        requires { AreOnTheWay self.old.team.replies self.old.team.stands.items }
        ensures { AreOnTheWay self.new.team.replies self.new.team.stands.items }
    {
        match self.team.asks(alloc, participants, number)? {
            Some(request) => {
                let crashes = self.team.may_leave(participants, number);
                let outcome = self.send(alloc, participants, number, &request);
                sent_with(request, crashes, outcome)
            }
            None => Ok(None),
        }
    }

    /// The store takes the request, and the participant the reply.
    fn send(
        &mut self,
        alloc: Global,
        participants: &[Participant],
        number: usize,
        request: &Request,
    ) -> Result<Outcome, Memory>
        requires { AreOnTheWay self.old.team.replies self.old.team.stands.items }
        ensures { AreOnTheWay self.new.team.replies self.new.team.stands.items }
    {
        let reply = self.store.take(request.clone()?)?;
        let outcome = self.take(alloc, participants, number, &reply);
        drop(reply);
        outcome
    }

    /// The participant takes the reply.
    fn take(
        &mut self,
        alloc: Global,
        participants: &[Participant],
        number: usize,
        reply: &Reply,
    ) -> Result<Outcome, Memory>
        requires { AreOnTheWay self.old.team.replies self.old.team.stands.items }
        ensures { AreOnTheWay self.new.team.replies self.new.team.stands.items }
    {
        let reads_left_out = self.team.left_out(alloc, participants, number, reply)?;
        self.team.take(alloc, participants, number, reply)?;
        Ok(Outcome {
            effect: effect_of(reply),
            reads_left_out,
        })
    }

    fn crash(
        &mut self,
        alloc: Global,
        participants: &[Participant],
        number: usize,
    ) -> Result<Option<Sending>, Memory>
        requires { AreOnTheWay self.old.team.replies self.old.team.stands.items }
        ensures { AreOnTheWay self.new.team.replies self.new.team.stands.items }
    {
        match self.team.asks(alloc, participants, number)? {
            Some(request) => {
                let outcome = self.leave_open(alloc, participants, number, &request);
                sent_with(request, false, outcome)
            }
            None => Ok(None),
        }
    }

    /// The participant crashes once it has called the request.
    fn leave_open(
        &mut self,
        alloc: Global,
        participants: &[Participant],
        number: usize,
        request: &Request,
    ) -> Result<Outcome, Memory>
        requires { AreOnTheWay self.old.team.replies self.old.team.stands.items }
        ensures { AreOnTheWay self.new.team.replies self.new.team.stands.items }
    {
        self.team.crash(alloc, participants, number)?;
        if number < self.late.len() {
            let copy = request.clone()?;
            drop(mem::replace(&mut self.late[number], Some(copy)));
        }
        Ok(Outcome {
            effect: Effect::Nothing,
            reads_left_out: 0,
        })
    }

    /// Carries out what the participant called before its crash.
    fn carry_out(&mut self, number: usize) -> Result<(), Memory>
        requires { AreOnTheWay self.old.team.replies self.old.team.stands.items }
        ensures { AreOnTheWay self.new.team.replies self.new.team.stands.items }
    {
        if let Some(Some(request)) = self.late.get(number) {
            drop(self.store.take(request.clone()?)?);
        }
        Ok(())
    }

    /// What each still asks.
    fn left_out(
        &self,
        alloc: Global,
        participants: &[Participant],
    ) -> Result<Vec<Option<Request>>, Memory>
        requires { AreOnTheWay self.now.team.replies self.now.team.stands.items }
    {
        let mut all = Vec::new(alloc);
        for number in 0..participants.len() {
            let request = self.team.asks(alloc, participants, number)?;
            all.push(request)?;
        }
        Ok(all)
    }
}

fn sent_with(
    request: Request,
    crashes: bool,
    outcome: Result<Outcome, Memory>,
) -> Result<Option<Sending>, Memory> {
    match outcome {
        Ok(outcome) => Ok(Some(Sending {
            request,
            crashes,
            outcome,
        })),
        Err(error) => {
            drop(request);
            Err(error)
        }
    }
}

fn effect_of(reply: &Reply) -> Effect {
    match reply {
        Reply::Created(_) | Reply::Updated(_) | Reply::Marked(_) | Reply::Removed(_) => {
            Effect::Write
        }
        Reply::Compacted { revision: _ } => Effect::Compaction,
        Reply::Found(_)
        | Reply::Listed {
            objects: _,
            revision: _,
        }
        | Reply::Unchanged(_)
        | Reply::Refused(_) => Effect::Nothing,
    }
}
