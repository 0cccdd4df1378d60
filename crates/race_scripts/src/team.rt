// Those who race, on their way.
ghost use Rattle.std.specs.Prelude.{IfOk, List};
ghost use Rattle.std.specs.List.{AllByRecursion};
ghost use Rattle.participants.specs.Stands.{IsWithin};
ghost use Rattle.requests.specs.declared.reply.Reply.{Reply as SpecReply};
ghost use Rattle.race_scripts.specs.Play.{AreOnTheWay};

use objects::Memory;
use outcomes::Replies;
use participants::{Participant, Stand};
use requests::{Reply, Request};
use std::alloc::Global;
use std::mem;

/// Where each participant stands, and the replies by which it got there.
#[derive(Drop)]
pub(crate) struct Team {
    pub stands: Vec<Stand>,
    pub replies: Replies,
}

impl Team {
    /// All where they begin.
    pub(crate) fn new(alloc: Global, participants: &[Participant]) -> Result<Team, Memory>
        ensures { IfOk result (λ team. AreOnTheWay team.replies team.stands.items) }
    {
        let stands = begun(alloc, participants)?;
        let replies = Replies::new(alloc);
        Ok(Team { stands, replies })
    }

    /// What the participant asks.
    pub(crate) fn asks(
        &self,
        alloc: Global,
        participants: &[Participant],
        number: usize,
    ) -> Result<Option<Request>, Memory>
        requires { AreOnTheWay self.now.replies self.now.stands.items }
    {
        let Some(participant) = participants.get(number) else {
            return Ok(None);
        };
        match self.stands.get(number) {
            Some(stand) => participant.asks(alloc, self.replies.table(), stand),
            None => Ok(None),
        }
    }

    /// Whether it crashes within that.
    pub(crate) fn may_leave(&self, participants: &[Participant], number: usize) -> bool {
        let Some(participant) = participants.get(number) else {
            return false;
        };
        match self.stands.get(number) {
            Some(stand) => participant.may_leave(stand),
            None => false,
        }
    }

    /// The participant takes the reply.
    pub(crate) fn take(
        &mut self,
        alloc: Global,
        participants: &[Participant],
        number: usize,
        reply: &Reply,
    ) -> Result<(), Memory>
        requires { AreOnTheWay self.old.replies self.old.stands.items }
        ensures { AreOnTheWay self.new.replies self.new.stands.items }
    {
        let Some(participant) = participants.get(number) else {
            return Ok(());
        };
        if number < self.stands.len() {
            let next = participant.takes(alloc, &mut self.replies, &self.stands[number], reply)?;
            drop(mem::replace(&mut self.stands[number], next));
        }
        Ok(())
    }

    /// How many reads the participant leaves out once it has that reply.
    pub(crate) fn left_out(
        &mut self,
        alloc: Global,
        participants: &[Participant],
        number: usize,
        reply: &Reply,
    ) -> Result<usize, Memory>
        requires { AreOnTheWay self.old.replies self.old.stands.items }
        ensures { AreOnTheWay self.new.replies self.new.stands.items }
    {
        let Some(participant) = participants.get(number) else {
            return Ok(0);
        };
        match self.stands.get(number) {
            Some(stand) => participant.left_out(alloc, &mut self.replies, stand, reply),
            None => Ok(0),
        }
    }

    /// The participant crashes.
    pub(crate) fn crash(
        &mut self,
        alloc: Global,
        participants: &[Participant],
        number: usize,
    ) -> Result<(), Memory>
        requires { AreOnTheWay self.old.replies self.old.stands.items }
        ensures { AreOnTheWay self.new.replies self.new.stands.items }
    {
        let Some(participant) = participants.get(number) else {
            return Ok(());
        };
        if number < self.stands.len() {
            let next = participant.anew(alloc, &self.stands[number])?;
            drop(mem::replace(&mut self.stands[number], next));
        }
        Ok(())
    }
}

fn begun(alloc: Global, participants: &[Participant]) -> Result<Vec<Stand>, Memory>
    ensures { IfOk result (λ stands. (table : List SpecReply) → AllByRecursion (IsWithin table) stands.items) }
{
    let mut stands = Vec::new(alloc);
    for participant in participants {
        stands.push(participant.begins(alloc)?)?;
    }
    Ok(stands)
}
