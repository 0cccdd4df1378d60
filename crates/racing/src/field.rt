// What all threads of a race share, and how they send requests.
ghost use Rattle.std.specs.Prelude.{◌≡◌, IfOk, OnOk, option_map};
ghost use Rattle.racing.specs.Parts.{HasAsked, last_reply};

use crate::asking::answered;
use crate::course::Course;
use crate::shared::SharedStore;
use objects::Memory;
use race_log::TimedExchange;
use requests::{Reply, Request};
use std::sync::Wait;
use store::Gate;

/// The store, the gate and the race.
pub(crate) struct RaceContext<'a, S, G> {
    pub store: &'a S,
    pub gate: &'a G,
    pub course: &'a Course,
}

impl<S, G> Drop for RaceContext<'_, S, G> {
    fn drop(self) {
        let RaceContext {
            store: _,
            gate: _,
            course: _,
        } = self;
    }
}

/// The last reply.
pub(crate) fn last_reply(exchanges: &[TimedExchange]) -> Option<&Reply>
    ensures { option_map (λ r. r.now) result ≡ last_reply exchanges.now }
{
    match exchanges.last() {
        Some(last) => Some(&last.reply),
        None => None,
    }
}

impl<S: SharedStore, G: Gate> RaceContext<'_, S, G> {
    /// Sends the request, and appends it to the part, with the store's reply and the places of both.
    pub(crate) fn ask<R: Wait>(
        &self,
        rt: &R,
        caller: &mut S::Caller,
        exchanges: &mut Vec<TimedExchange>,
        request: Request,
    ) -> Result<(), Memory>
        ensures { OnOk result (HasAsked S.shards S.capacity (S.known caller.old) (S.known caller.new) request exchanges.old.items exchanges.new.items) }
    {
        let Ok(noted) = request.clone() else {
            drop(request);
            return Err(Memory);
        };
        let call = self.course.next_place();
        match answered(rt, self.store, self.gate, caller, request) {
            Ok((reply, number)) => {
                let place = self.course.next_place();
                exchanges.push(TimedExchange {
                    call,
                    request: noted,
                    place,
                    number,
                    reply,
                })?;
                Ok(())
            }
            Err(Memory) => {
                drop(noted);
                Err(Memory)
            }
        }
    }
}
