// What is asked about the ends of a race.
ghost use Rattle.std.specs.Prelude.{◌≡◌, IfOk};
ghost use Rattle.race_lines.specs.Questions.{AsksAbout, looks_asked, looks_too, sent_asked, tells_too};

use crate::looks::looks_of;
use crate::race::{Sent, WrittenRace};
use explorer::Race;
use participants::Participant;
use requests::Request;
use std::alloc::{AllocError, Global};

/// What is asked about the ends of a race. Ends with the same answer are one.
#[derive(Clone, Copy, PartialEq, Eq, Drop)]
pub enum Question {
    /// What are the callers told?
    Told,
    /// Which store is left?
    Stores,
    /// Which callers are told what, and which store is left then?
    Both,
}

impl Question {
    /// Whether what callers are told is part of the answer.
    pub fn tells(self) -> bool
        ensures { result ≡ tells_too self }
    {
        match self {
            Question::Told | Question::Both => true,
            Question::Stores => false,
        }
    }

    /// Whether the store is.
    pub fn looks(self) -> bool
        ensures { result ≡ looks_too self }
    {
        match self {
            Question::Stores | Question::Both => true,
            Question::Told => false,
        }
    }
}

/// A race, and what of it is told.
#[derive(Drop)]
pub struct AskedRace {
    pub race: Race,
    /// The number of each participant that is a caller.
    pub callers: Vec<Option<u64>>,
    /// The requests of which is told what became of them, in the order of the text.
    pub sent: Vec<Sent>,
}

/// The race as a text has it, for that question: if the store is part of the answer, the race ends with a list of each
/// kind in each namespace that its lines name.
pub fn asked_race(
    alloc: Global,
    question: Question,
    written: WrittenRace,
) -> Result<AskedRace, AllocError>
    ensures { IfOk result (λ asked. AsksAbout question written asked) }
{
    let WrittenRace {
        capacity,
        beginning,
        participants,
        callers,
        lines,
        sent,
        read: _,
    } = written;
    let looks = looks_asked(
        alloc,
        question,
        beginning.as_slice(),
        participants.as_slice(),
    )?;
    Ok(AskedRace {
        race: Race {
            capacity,
            beginning,
            participants,
            lines,
            tells: question.tells(),
            looks,
        },
        callers,
        sent: sent_asked(alloc, question, sent),
    })
}

fn looks_asked(
    alloc: Global,
    question: Question,
    beginning: &[Request],
    participants: &[Participant],
) -> Result<Vec<Request>, AllocError>
    ensures { IfOk result (λ looks. looks.items ≡ looks_asked question beginning.now participants.now) }
{
    if question.looks() {
        looks_of(alloc, beginning, participants)
    } else {
        Ok(Vec::new(alloc))
    }
}

fn sent_asked(alloc: Global, question: Question, sent: Vec<Sent>) -> Vec<Sent>
    ensures { result.items ≡ sent_asked question sent.items }
{
    if question.tells() {
        sent
    } else {
        Vec::new(alloc)
    }
}
